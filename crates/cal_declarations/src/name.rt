//! The names that may be declared.
ghost use Rattle.std.specs.Prelude.{◌≡◌, length};
ghost use Rattle.std.specs.List.{list_all};
ghost use Rattle.cal_script.specs.Names.{is_attribute_name, is_name, is_name_byte, is_reserved};

/// The most bytes that a name has.
const LONGEST_NAME: usize = 200;

fn is_name_byte(byte: u8) -> bool
    ensures { result ≡ is_name_byte byte }
{
    byte.is_ascii_alphanumeric() || b"._-:".contains(&byte)
}

fn has_name_bytes(name: &str) -> bool
    ensures { result ≡ list_all is_name_byte name.now }
{
    name.as_bytes().iter().all(|byte| is_name_byte(*byte))
}

fn is_name(name: &str) -> bool
    ensures { result ≡ is_name name.now }
{
    name.len() >= 1 && name.len() <= LONGEST_NAME && has_name_bytes(name)
}

fn is_reserved(name: &str) -> bool
    ensures { result ≡ is_reserved name.now }
{
    name == "path"
        || name == "count"
        || name == "time.duration.ns"
        || name == "time.inclusive.duration.ns"
        || name == "region.depth"
        || name == "region.count"
        || name.as_bytes().starts_with(b"cali.")
}

/// Whether a name may be declared.
pub(crate) fn is_attribute_name(name: &str) -> bool
    ensures { result ≡ is_attribute_name name.now }
{
    is_name(name) && !is_reserved(name)
}
