//! Texts and lists that grow.

use cal_value::{OutOfMemory, Seq, Text};
use std::alloc::Global;

fn a_text_grows(alloc: Global) -> bool {
    let mut text = Text::from_string(String::new(alloc));
    let was_empty = text.is_empty();
    let grown = text.push_str("nöt").is_ok() && text.push('.').is_ok();
    grown && was_empty && text.len() == 5 && text.into_string().as_str() == "nöt."
}

fn grows(list: &mut Seq<u64>) -> bool {
    list.push(3).is_ok() && list.pop() == Some(3) && list.get(1) == Some(&2) && list.len() == 2
}

fn a_list_grows(alloc: Global) -> Result<bool, OutOfMemory> {
    let mut list = Seq::from_vec([1, 2].to_vec(alloc)?);
    Ok(grows(&mut list) && list.into_vec().as_slice() == [1, 2].as_slice())
}

#[test]
fn texts_and_lists_grow(rt: HostRuntime) {
    assert!(rt; a_text_grows(rt.alloc()));
    assert!(rt; a_list_grows(rt.alloc()) == Ok(true));
}
