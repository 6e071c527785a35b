ghost use Rattle.std.specs.Prelude.{◌≡◌, ◌≤◌, ◌<◌, max};
ghost use Rattle.cal_script.specs.Limits.{arena, tree_words};
ghost use Rattle.cal_script.specs.Reader.{IsNear, IsSmall};
ghost use Rattle.cal_script.specs.State.{counted, made_words, next_thread, node_length};
ghost use Rattle.cal_value.specs.declared.variant.Variant.TheVariants as variant;

use crate::said::{Said, SaidForm};
use cal_value::{Attribute, Variant};
use cal_words::{NodeId, NodeRec, Packed};

/// What the limits count of the lines of threads so far.
#[derive(Clone, Copy, Debug)]
pub(crate) struct Tally {
    /// The lines of all threads, and those of them that are process lines.
    pub(crate) lines: u64,
    pub(crate) process_lines: u64,
    /// The words of the nodes that process lines make.
    pub(crate) shared: u64,
    /// Those of the nodes that other lines of the last thread make, and the most that those of one
    /// of the earlier threads make.
    pub(crate) own: u64,
    pub(crate) most: u64,
}

impl Tally {
    /// With a line more, which may be a process line, and whose node has so many words.
    pub(crate) fn counted(self, process: bool, words: u64) -> Tally
        requires small { IsSmall self }
        requires words { words ≤ 516 }
        ensures counted { result ≡ counted process words self }
        ensures near { IsNear result }
    {
        if process {
            Tally {
                lines: self.lines + 1,
                process_lines: self.process_lines + 1,
                shared: self.shared + words,
                ..self
            }
        } else {
            Tally {
                lines: self.lines + 1,
                own: self.own + words,
                ..self
            }
        }
    }

    /// Where the next thread begins.
    pub(crate) fn next_thread(self) -> Tally
        ensures { result ≡ next_thread self }
    {
        Tally {
            own: 0,
            most: self.most.max(self.own),
            ..self
        }
    }

    /// The room that a thread needs for nodes.
    pub(crate) fn arena(self) -> u64
        requires { IsNear self }
        ensures arena { result ≡ arena self }
        ensures small { result ≤ 268436488 }
    {
        self.shared + self.most.max(self.own)
    }
}

/// The words of a tree for so many threads and such arenas.
pub(crate) fn tree_words(threads: u64, arena: u64) -> u64
    requires threads { threads ≤ 65 }
    requires arena { arena ≤ 268436488 }
    ensures { result ≡ tree_words threads arena }
{
    1 + ((threads + 1) * (arena / 4) + 1) + (threads + 1) * arena
}

/// The words of the node that a line of an attribute makes for a value.
pub(crate) fn made_words(attribute: &Attribute, value: &Said<'_>) -> u64
    ensures { result ≡ made_words attribute.now value.now }
{
    if !attribute.props.is_reference() {
        return 0;
    }
    match &value.form {
        SaidForm::Text { text, hash: _ } => text_node_length(text),
        SaidForm::Value { value, hash: _ } => node_length(value),
    }
}

#[tactic(auto, using(crate::proofs::Values::text_node))]
fn text_node_length(text: &str) -> u64
    ensures { result ≡ node_length (variant.Text text.now) }
{
    4 + (text.len() as u64 + 7) / 8
}

/// The words of the node of a value.
pub(crate) fn node_length(value: &Variant) -> u64
    ensures { result ≡ node_length value.now }
{
    let node = NodeRec {
        parent: NodeId(0),
        depth: 1,
        attr: 0,
        value,
    };
    node.len()
}
