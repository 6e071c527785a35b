//! Reading a declaration back, where it is of a name.
ghost use Rattle.std.specs.Prelude.{◌≡◌, ◌≢◌, ◌+◌, ◌<◌, IfNone, IfSome, length};
ghost use Rattle.cal_once.specs.Seats.{view};
ghost use Rattle.cal_once.specs.Views.{Holds, Knows, Learns};
ghost use Rattle.cal_names.specs.Answers.{with_content};
ghost use Rattle.cal_names.specs.Declarations.{Declaration, HasNameLength, IsDeclaration};
ghost use Rattle.cal_names.specs.Declarations.{IsName, name_words};
ghost use Rattle.cal_names.specs.Kept.{HasOtherName, IsNameSeat, plan_of};
ghost use Rattle.cal_words.specs.Back.{kind_from};
ghost use Rattle.cal_words.specs.Words.{text_words};

use crate::{NameRec, NameSeat, Names};
use cal_value::Kind;
use cal_words::{Packed, text_len, text_word};

/// The most words that a declaration has: four, and those of a name of 200 bytes.
const MOST_WORDS: usize = 29;

/// What a declaration says of its name.
#[derive(Clone, Copy, Debug, PartialEq, Eq)]
pub struct Content {
    pub kind: Kind,
    pub props: u32,
}

impl Names {
    /// What the declaration at a known place says, where it is of the name of this one.
    pub(crate) fn content_of(
        &self,
        seat: &mut NameSeat,
        place: u64,
        rec: &NameRec<'_>,
    ) -> Option<Content>
        requires seat { IsNameSeat self.now seat.old }
        requires place { place < (plan_of self.now).shape.slots }
        requires known { Knows (view seat.old) place }
        requires long { HasNameLength rec.now.name.now }
        ensures seat { IsNameSeat self.now seat.new }
        ensures learns { Learns (view seat.old) (view seat.new) }
        ensures here { IfSome result (λ content.
            Holds (view seat.new) place (name_words (with_content rec.now.name.now content))) }
        ensures other { IfNone result (HasOtherName (view seat.new) rec.now.name.now place) }
    {
        let long = rec.len();
        if self.rows.size(seat, place) != long {
            return None;
        }
        let mut buffer = [0; MOST_WORDS];
        let words = &mut buffer[..long as usize];
        self.rows.front(seat, place, words);
        read_content(words, rec)
    }
}

/// What the declaration of these words says, where it is of the name of this one.
fn read_content(words: &[u64], rec: &NameRec<'_>) -> Option<Content>
    requires words { IsName words.now }
    requires size { length words.now ≡ 4 + length (text_words rec.now.name.now) }
    requires long { HasNameLength rec.now.name.now }
    ensures here { IfSome result (λ content.
        words.now ≡ name_words (with_content rec.now.name.now content)) }
    ensures other { IfNone result ((d : Declaration) → IsDeclaration d
        → words.now ≡ name_words d → d.name ≢ rec.now.name.now) }
{
    if words[2] % (1 << 32) != rec.name.len() as u64 {
        return None;
    }
    for i in 0..text_len(rec.name) {
        if words[4 + i as usize] != text_word(rec.name, i) {
            return None;
        }
    }
    Some(Content {
        kind: kind_of_node(words[2] / (1 << 32)),
        props: words[3] as u32,
    })
}

/// The kind that a node stands for, and `usr` where it stands for none.
fn kind_of_node(node: u64) -> Kind
    ensures { result ≡ kind_from node }
{
    match node {
        1 => Kind::Int,
        2 => Kind::Uint,
        3 => Kind::Str,
        4 => Kind::Addr,
        5 => Kind::Double,
        6 => Kind::Bool,
        7 => Kind::TypeName,
        11 => Kind::Ptr,
        _ => Kind::Usr,
    }
}
