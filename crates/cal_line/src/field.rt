use cal_value::{Seq, Text};

/// A key with its values, at least one (the `.cali` format).
#[derive(Debug, Drop)]
pub struct Field {
    pub key: Text,
    pub values: Seq<Text>,
}
