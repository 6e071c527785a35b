ghost use Rattle.std.specs.Prelude.{◌≡◌, ℕ, List};
ghost use Rattle.cal_context.specs.Tree.{Tree, Grows};
ghost use Rattle.cal_value.specs.declared.record.Records.{Records};
ghost use Rattle.cal_read.specs.Reading.{HasRead};
ghost use Rattle.cal_read.specs.Stream.{IsFault, IsStreamOf};
ghost use Rattle.cal_read.specs.declared.kind.StreamKind.{StreamKind};
ghost use Rattle.cal_read.specs.declared.stream_reader.StreamReader.{StreamReader};

/// No bytes have two readings, and none that have a fault have one.
pub fn one_reading()
    ensures one { (bytes : List ℕ) (records others : Records)
        → IsStreamOf bytes records → IsStreamOf bytes others → records ≡ others }
    ensures none { (bytes : List ℕ) (records : Records) (line : ℕ) (kind : StreamKind)
        → IsStreamOf bytes records → ¬ IsFault bytes line kind }
{}

/// What a reader has read stays so while the context grows.
pub fn readings_stay()
    ensures { (reader : StreamReader) (old new : Tree) (bytes : List ℕ)
        → HasRead reader old bytes → Grows old new → HasRead reader new bytes }
{}
