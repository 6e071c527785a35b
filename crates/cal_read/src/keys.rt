ghost use Rattle.std.specs.Prelude.{◌≡◌, ◌≤◌, take, length, IfOk};
ghost use Rattle.std.specs.List.{list_any};
ghost use Rattle.cal_read.specs.Fields.{has_key, repeats_key, values_of};
ghost use Rattle.cal_read.specs.Keys.{values_in};

use cal_context::Interner;
use cal_line::{FieldPieces, Fields};
use cal_seeds::Seeds;
use cal_value::{OutOfMemory, Text};
use std::alloc::Global;

// among so many fields a key is compared with each one before it
const FEW: usize = 16;

/// Whether a field has this key.
pub(crate) fn has_key(alloc: Global, field: &FieldPieces, key: &str) -> Result<bool, OutOfMemory>
    ensures { IfOk result (λ has. has ≡ has_key key.now field.now) }
{
    let text = field.key().text(alloc)?;
    Ok(text.as_str() == key)
}

/// The field with this key.
pub(crate) fn field_with_key<'a>(
    alloc: Global,
    fields: &Fields<'a>,
    key: &str,
) -> Result<Option<FieldPieces<'a>>, OutOfMemory>
    ensures { IfOk result (λ found. values_of key.now fields.now ≡ values_in found) }
{
    for place in 0..fields.len() {
        let field = fields.get(place);
        if has_key(alloc, &field, key)? {
            return Ok(Some(field));
        }
    }
    Ok(None)
}

/// Whether a key comes twice. Many keys are hashed by the seeds.
pub(crate) fn repeats_key(alloc: Global, seeds: Seeds, fields: &Fields) -> Result<bool, OutOfMemory>
    ensures { IfOk result (λ repeats. repeats ≡ repeats_key fields.now) }
{
    if fields.len() <= FEW {
        repeats_key_of_few(alloc, fields)
    } else {
        repeats_key_of_many(alloc, seeds, fields)
    }
}

fn repeats_key_of_few(alloc: Global, fields: &Fields) -> Result<bool, OutOfMemory>
    ensures { IfOk result (λ repeats. repeats ≡ repeats_key fields.now) }
{
    for place in 0..fields.len() {
        let field = fields.get(place);
        let key = field.key().text(alloc)?;
        if has_key_before(alloc, fields, place, key.as_str())? {
            return Ok(true);
        }
    }
    Ok(false)
}

/// Whether one of the first fields has this key.
fn has_key_before(
    alloc: Global,
    fields: &Fields,
    count: usize,
    key: &str,
) -> Result<bool, OutOfMemory>
    requires { count ≤ length fields.now }
    ensures { IfOk result (λ has. has ≡ list_any (has_key key.now) (take count fields.now)) }
{
    for place in 0..count {
        let field = fields.get(place);
        if has_key(alloc, &field, key)? {
            return Ok(true);
        }
    }
    Ok(false)
}

fn repeats_key_of_many(alloc: Global, seeds: Seeds, fields: &Fields) -> Result<bool, OutOfMemory>
    ensures { IfOk result (λ repeats. repeats ≡ repeats_key fields.now) }
{
    let mut keys: Interner<Text> = Interner::seeded(alloc, seeds);
    for place in 0..fields.len() {
        let field = fields.get(place);
        keys.intern(field.key().to_text(alloc)?)?;
        if keys.as_slice().len() == place {
            return Ok(true);
        }
    }
    Ok(false)
}
