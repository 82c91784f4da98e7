ghost use Rattle.std.specs.Prelude.{◌≡◌};
ghost use Rattle.ob_early.specs.Found.{outermost, turn_of, function_of};

/// What stands around a part, beside the names that are bound there: whether a loop of the same
/// function does, and whether that function is a generator.
#[derive(Clone, Copy)]
pub struct Place {
    pub in_loop: bool,
    pub in_generator: bool,
}

impl Place {
    /// Around a whole cell.
    pub fn outermost() -> Place
        ensures { result ≡ outermost }
    {
        Place {
            in_loop: false,
            in_generator: false,
        }
    }

    /// Around the statement that a loop at this place repeats.
    pub fn turn(self) -> Place
        ensures { result ≡ turn_of self }
    {
        Place {
            in_loop: true,
            in_generator: self.in_generator,
        }
    }

    /// Around the parameters and the body of a function.
    pub fn function(generator: bool) -> Place
        ensures { result ≡ function_of generator }
    {
        Place {
            in_loop: false,
            in_generator: generator,
        }
    }
}
