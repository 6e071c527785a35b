//! A declaration of a name, as the words of a record.
ghost use Rattle.std.specs.Prelude.{◌≡◌, ℕ, ◌%◌, ◌^◌, ◌<◌, ◌∷◌, drop, length, slice_index};
ghost use Rattle.cal_names.specs.Declarations.{HasNameLength, IsDeclaration, declared};
ghost use Rattle.cal_names.specs.Declarations.{words_of};
ghost use Rattle.cal_words.specs.Homes.{words_hash};
ghost use Rattle.cal_words.specs.Records.{IsText};

use cal_value::Kind;
use cal_words::{Packed, RecSort, hash_word, start_hash, text_len, text_word};

/// A declaration of a name.
#[derive(Clone, Copy)]
pub struct NameRec<'a> {
    pub name: &'a str,
    pub kind: Kind,
    pub props: u32,
}

/// The declarations of names. Every seat may publish each of them.
#[derive(Clone, Copy, Debug)]
pub struct NameSort;

impl RecSort for NameSort {
    ghost use Rattle.cal_names.specs.Declarations.{IsName, IsName-long, name_home};

    ghost is_record = { λ _ words. IsName words };

    ghost home_of = { name_home };

    ghost may_publish = { λ _ _ _. Unit {0} };

    ghost has_parent = { λ _. IsName-long };
}

impl Packed<NameSort> for NameRec<'_> {
    ghost words = { words_of };

    fn len(&self) -> u64 {
        4 + text_len(self.name)
    }

    fn word(&self, i: u64) -> u64 {
        match i {
            0 => 0,
            1 => 1,
            2 => self.kind.node() * (1 << 32) + self.name.len() as u64,
            3 => u64::from(self.props),
            _ => text_word(self.name, i - 4),
        }
    }

    fn matches(&self, i: u64, w: u64) -> bool {
        self.word(i) == w
    }

    fn home(&self, homes: u64) -> u64 {
        hash(self) % homes
    }
}

/// The hash of a declaration's name, over its length and its words.
fn hash(rec: &NameRec<'_>) -> u64
    ensures { result ≡ words_hash
        ((slice_index (words_of rec.now) 2 % 2 ^ 32) ∷ drop 4 (words_of rec.now)) }
{
    let mut hash = hash_word(start_hash(), rec.word(2) % (1 << 32));
    for i in 0..text_len(rec.name) {
        hash = hash_word(hash, text_word(rec.name, i));
    }
    hash
}

/// What is declared of a name of 1 to 200 bytes is a declaration. It costs nothing.
pub fn know_name(rec: &NameRec<'_>)
    requires { HasNameLength rec.now.name.now }
    ensures { IsDeclaration (declared rec.now) }
{
    let NameRec {
        name,
        kind: _kind,
        props: _props,
    } = *rec;
    know_text(name);
}

fn know_text(text: &str)
    requires { length text.now < 2 ^ 32 }
    ensures { IsText text.now }
{
    know_bytes(text.as_bytes());
}

fn know_bytes(bytes: &[u8])
    ensures { (i : ℕ) → slice_index bytes.now i < 2 ^ 8 }
{
    let _length = bytes.len();
}
