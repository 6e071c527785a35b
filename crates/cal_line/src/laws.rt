ghost use Rattle.std.specs.Prelude.{◌≡◌, ◌↔◌, ◌<◌, ℕ, List, [], ◌∷◌, ◌++◌, length, Some};
ghost use Rattle.std.specs.List.{AllByRecursion};
ghost use Rattle.cal_line.specs.Escapes.{escaped};
ghost use Rattle.cal_line.specs.Fields.{IsFields, fields_of};
ghost use Rattle.cal_line.specs.Lines.{HasNoNewline, lines_of};
ghost use Rattle.cal_line.specs.Tokens.{IsPiece, Spells, spelled_text};
ghost use Rattle.cal_line.specs.WrittenFields.{IsWritable, written_fields};
ghost use Rattle.cal_line.specs.declared.field.Field.{Field};

/// A newline ends the first line of an input; an input without one is a line, unless it is empty.
pub fn lines_end_at_newlines()
    ensures ended { (line rest : List ℕ) → HasNoNewline line
        → lines_of (line ++ 10 ∷ rest) ≡ line ∷ lines_of rest }
    ensures last { (line : List ℕ) → HasNoNewline line → 0 < length line
        → lines_of line ≡ line ∷ [] }
{}

/// A line has at most one list of fields, which is a function of it.
pub fn one_list_of_fields()
    ensures one { (line : List ℕ) (fields others : List Field)
        → IsFields line fields → IsFields line others → fields ≡ others }
    ensures computed { (line : List ℕ) (fields : List Field)
        → (IsFields line fields ↔ (fields_of line ≡ Some fields)) }
{}

/// Bytes spell at most one text, which is a function of them.
pub fn one_text()
    ensures one { (bytes text other : List ℕ)
        → Spells bytes text → Spells bytes other → text ≡ other }
    ensures computed { (bytes text : List ℕ)
        → (Spells bytes text ↔ (spelled_text bytes ≡ Some text)) }
{}

/// What is written of a text spells it, by itself and in a line.
pub fn escaped_spells_the_text()
    ensures alone { (text : List ℕ) → Spells (escaped text) text }
    ensures in_line { (text : List ℕ) → IsPiece (escaped text) text }
{}

/// A line that is written of fields has these fields.
pub fn written_fields_are_read()
    ensures { (field : Field) (fields : List Field) → AllByRecursion IsWritable (field ∷ fields)
        → IsFields (written_fields field fields) (field ∷ fields) }
{}
