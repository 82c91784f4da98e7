mod lines;
mod sides;
