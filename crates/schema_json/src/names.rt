//! Names of columns.
ghost use Rattle.std.specs.Prelude.{◌≡◌};
ghost use Rattle.std.specs.List.{list_all};
ghost use Rattle.schema_json.specs.Columns.{is_good_name, is_keyword, is_name_byte};

fn is_name_byte(byte: u8) -> bool
    ensures { result ≡ is_name_byte byte }
{
    byte.is_ascii_alphanumeric() || byte == b'_'
}

fn is_keyword(name: &str) -> bool
    ensures { result ≡ is_keyword name.now }
{
    matches!(name, "and" | "or" | "not" | "all" | "in")
}

fn has_name_bytes(name: &[u8]) -> bool
    ensures { result ≡ list_all is_name_byte name.now }
{
    name.iter().all(|byte| is_name_byte(*byte))
}

// Whether a column may have this name.
pub(crate) fn is_good_name(name: &str) -> bool
    ensures { result ≡ is_good_name name.now }
{
    let bytes = name.as_bytes();
    match bytes {
        [] => false,
        [first, ..] => {
            first.is_ascii_alphabetic()
                && bytes.len() <= 32
                && has_name_bytes(bytes)
                && !is_keyword(name)
        }
    }
}
