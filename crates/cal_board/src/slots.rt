ghost use Rattle.std.specs.Prelude.{◌≡◌, ◌+◌, ◌<◌, ◌≤◌, [], ◌∷◌, ◌++◌, length, vec_capacity, vec_len};
ghost use Rattle.std.specs.Prelude.{IfOk, IsOk, OnOk, OnErr, MatchResult};
ghost use Rattle.cal_board.specs.Slots.{AreOrdered, front, opened_in, with_slot, IsAt, IsGap};

use crate::{Growing, Opened, Reserved, Room, Slot, Stack};
use cal_value::OutOfMemory;
use std::alloc::Global;
use std::marker::{Model, PhantomData};

/// How many slots a board may have.
const MOST_SLOTS: usize = 64;

/// The slots that hold values, in the order of their numbers. A slot without values isn't kept, but
/// its memory is, for the next one that is opened.
#[derive(Drop)]
pub(crate) struct Slots<V, R: Room> {
    slots: Vec<Slot<V>>,
    spare: Vec<Stack<Opened<V>>>,
    room: PhantomData<R>,
}

impl<V, R: Room> Model for Slots<V, R> {
    ghost use Rattle.std.specs.Prelude.{List};
    ghost use Rattle.cal_board.specs.declared.opened.Slot.{Slot};
    ghost use Rattle.cal_board.specs.Rooms.{HaveRoom};

    ghost Value = { List (Slot V) };

    ghost view = { λ s. s.slots.items };

    ghost invariant = { λ s. HaveRoom R.slots s.slots s.spare };
}

impl<V> Slots<V, Growing> {
    /// No slot. It takes no memory.
    pub fn new(alloc: Global) -> Self
        ensures { result ≡ [] }
    {
        Slots {
            slots: Vec::new(alloc),
            spare: Vec::new(alloc),
            room: PhantomData,
        }
    }
}

impl<V> Slots<V, Reserved> {
    /// No slot, and all memory for 64 slots.
    pub fn reserved(alloc: Global) -> Result<Self, OutOfMemory>
    where
        V: Drop,
        ensures { IfOk result (λ slots. slots ≡ []) }
    {
        Ok(Slots {
            slots: Vec::with_capacity(alloc, MOST_SLOTS)?,
            spare: stacks(alloc, MOST_SLOTS)?,
            room: PhantomData,
        })
    }
}

impl<V, R: Room> Slots<V, R> {
    /// The slots are in order, and hold values.
    pub fn is_ordered(&self)
        ensures { AreOrdered self.now }
    {
        let _ = &self.spare;
    }

    /// The slots that hold values, in the order of their numbers.
    #[inline(always)]
    pub fn as_slice(&self) -> &[Slot<V>]
        ensures { result.now ≡ self.now }
    {
        self.slots.as_slice()
    }

    /// The open values of a slot, the outermost first.
    #[inline(always)]
    pub fn opened(&self, number: u64) -> &[Opened<V>]
        ensures { result.now ≡ opened_in number self.now }
    {
        match find(&self.slots, number) {
            Ok(place) => self.slots[place].opened.as_slice(),
            Err(_) => &[],
        }
    }

    /// Adds a value at the end of a slot. An `Err` leaves all as it was, and drops the value.
    pub fn push(&mut self, number: u64, opened: Opened<V>) -> Result<(), OutOfMemory>
    where
        V: Drop,
        ensures pushed { OnOk result
            (self.new ≡ with_slot number (opened_in number self.old ++ opened ∷ []) self.old) }
        ensures err { OnErr result (self.new ≡ self.old) }
        ensures room { length (opened_in number self.old) < 128
            → (opened_in number self.old ≡ [] → length self.old < R.slots) → IsOk result }
    {
        match find(&self.slots, number) {
            Ok(place) => self.slots[place].opened.push(opened),
            Err(place) => {
                let alloc = *self.slots.allocator();
                let opened = stack_of(alloc, &mut self.spare, opened)?;
                self.slots.insert(place, Slot { number, opened })?;
                Ok(())
            }
        }
    }

    /// Takes the last value of a slot away, if there is one.
    pub fn pop(&mut self, number: u64)
    where
        V: Drop,
        ensures { self.new ≡ with_slot number (front (opened_in number self.old)) self.old }
    {
        let Ok(place) = find(&self.slots, number) else {
            return;
        };
        if self.slots[place].opened.len() > 1 {
            self.slots[place].opened.drop_last();
        } else {
            let values = self.slots.remove(place).opened;
            keep(&mut self.spare, values);
        }
    }

    /// Puts another value in the place of a slot's last one.
    pub fn replace(&mut self, number: u64, opened: Opened<V>)
    where
        V: Drop,
        requires { 0 < length (opened_in number self.old) }
        ensures { self.new
            ≡ with_slot number (front (opened_in number self.old) ++ opened ∷ []) self.old }
    {
        let Ok(place) = find(&self.slots, number) else {
            return;
        };
        self.slots[place].opened.set_last(opened);
    }
}

/// So many stacks without items.
fn stacks<T: Drop>(alloc: Global, count: usize) -> Result<Vec<Stack<T>>, OutOfMemory>
    ensures count { IfOk result (λ made. vec_len made ≡ count) }
    ensures capacity { IfOk result (λ made. count ≤ vec_capacity made) }
{
    let mut made = Vec::with_capacity(alloc, count)?;
    for _place in 0..count {
        made.push(Stack::new(alloc)?)?;
    }
    Ok(made)
}

/// A stack of one item: a spare one, or a new one where none is left.
fn stack_of<T: Drop>(
    alloc: Global,
    spare: &mut Vec<Stack<T>>,
    item: T,
) -> Result<Stack<T>, OutOfMemory>
    ensures made { IfOk result (λ stack. stack ≡ item ∷ []) }
    ensures one { vec_len spare.old ≤ vec_len spare.new + 1 }
    ensures capacity { vec_capacity spare.new ≡ vec_capacity spare.old }
    ensures err { OnErr result (vec_len spare.new ≡ vec_len spare.old) }
    ensures room { 0 < vec_len spare.old → IsOk result }
{
    let mut stack = match spare.pop() {
        Some(stack) => stack,
        None => Stack::new(alloc)?,
    };
    stack.begin(item);
    Ok(stack)
}

/// Keeps a stack's memory for the next slot; where there is no room for it, it is given back.
fn keep<T: Drop>(spare: &mut Vec<Stack<T>>, mut stack: Stack<T>)
    ensures capacity { vec_capacity spare.old ≤ vec_capacity spare.new }
    ensures fewer { vec_len spare.old ≤ vec_len spare.new }
    ensures kept { vec_len spare.old < vec_capacity spare.old
        → vec_len spare.new ≡ vec_len spare.old + 1 }
{
    stack.clear();
    let _ = spare.push(stack);
}

/// The place of a slot, or else the place to which it would go.
#[inline(always)]
fn find<V>(slots: &[Slot<V>], number: u64) -> Result<usize, usize>
    ensures { MatchResult result (IsAt slots.now number) (IsGap slots.now number) }
{
    for (place, slot) in slots.iter().enumerate() {
        if slot.number >= number {
            return if slot.number == number {
                Ok(place)
            } else {
                Err(place)
            };
        }
    }
    Err(slots.len())
}
