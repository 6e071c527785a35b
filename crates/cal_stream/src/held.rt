ghost use Rattle.std.specs.Prelude.{◌<◌, ◌^◌, All, IsUtf8, length};
ghost use Rattle.cal_stream.specs.Readable.{IsHeldEntry, IsHeldRecord, IsHeldText};

use cal_value::{Entry, Props, Rec, Seq, Text, Variant, printed_reads_back};

// What the types say of records, which reading them shows.

fn see_text(text: &Text)
    ensures { IsUtf8 text.now }
{
    let _ = text.as_str();
}

pub(crate) fn see_length(text: &Text)
    ensures { length text.now < 2 ^ 64 }
{
    let _length = text.len();
}

fn see_props(props: Props)
    ensures { props.0 < 2 ^ 32 }
{
    let _bits = props.0;
}

fn see_value(value: &Variant)
    ensures { IsHeldText value.now }
{
    match value {
        Variant::Text(text) => see_text(text),
        Variant::Real(text) => see_text(text),
        Variant::Usr(text) => see_text(text),
        Variant::Ptr(text) => see_text(text),
        Variant::Int(_) => {}
        Variant::Uint(_) => {}
        Variant::Bool(_) => {}
        Variant::Addr(_) => {}
        Variant::Kind(_) => {}
        Variant::Fixed(_) => {}
    }
}

fn see_entry(entry: &Entry)
    ensures { IsHeldEntry entry.now }
{
    see_text(&entry.attr.name);
    see_props(entry.attr.props);
    see_value(&entry.value);
    printed_reads_back(&entry.value);
}

fn see_entries(entries: &Seq<Entry>)
    ensures { All IsHeldEntry entries.now }
{
    for entry in entries.as_slice() {
        see_entry(entry);
    }
}

fn see_paths(paths: &Seq<Seq<Entry>>)
    ensures { All (λ path. All IsHeldEntry path) paths.now }
{
    for path in paths.as_slice() {
        see_entries(path);
    }
}

pub(crate) fn see_record(r: &Rec)
    ensures { IsHeldRecord r.now }
{
    see_paths(&r.paths);
    see_entries(&r.imms);
}

pub(crate) fn see_rows(rows: &Seq<Rec>)
    ensures { All IsHeldRecord rows.now }
{
    for r in rows.as_slice() {
        see_record(r);
    }
}
