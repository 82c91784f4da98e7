ghost use Rattle.std.specs.Prelude.{◌≡◌};
ghost use Rattle.std.specs.List.{list_all};
ghost use Rattle.ob_script.specs.Ids.{is_cell_byte, is_notebook_byte, is_cell_id, is_notebook_id};

fn is_cell_byte(b: u8) -> bool
    ensures { result ≡ is_cell_byte b }
{
    b >= b'A' && b <= b'Z'
        || b >= b'a' && b <= b'z'
        || b >= b'0' && b <= b'9'
        || b == b'_'
        || b == b'-'
}

fn is_notebook_byte(b: u8) -> bool
    ensures { result ≡ is_notebook_byte b }
{
    is_cell_byte(b) || b == b'@' || b == b'/' || b == b'.'
}

fn are_cell_bytes(bytes: &[u8]) -> bool
    ensures { result ≡ list_all is_cell_byte bytes.now }
{
    bytes.iter().all(|b| is_cell_byte(*b))
}

fn are_notebook_bytes(bytes: &[u8]) -> bool
    ensures { result ≡ list_all is_notebook_byte bytes.now }
{
    bytes.iter().all(|b| is_notebook_byte(*b))
}

/// Whether a text has the form of a cell's id.
pub fn is_cell_id(id: &str) -> bool
    ensures { result ≡ is_cell_id id.now }
{
    id.len() >= 1 && id.len() <= 100 && are_cell_bytes(id.as_bytes())
}

/// Whether a text has the form of a notebook's id.
pub fn is_notebook_id(id: &str) -> bool
    ensures { result ≡ is_notebook_id id.now }
{
    id.len() >= 1 && id.len() <= 100 && are_notebook_bytes(id.as_bytes())
}
