// The stack of opened nodes in a lent buffer, a quadword each: a tag, the place of the node, the place where something
// starts, and a word that is not used.
ghost use Rattle.std.specs.Prelude.{◌<◌, ◌≡◌};
ghost use Rattle.words.specs.Quadwords.{quadwords_in, quadword_at};
ghost use Rattle.machine_walk.specs.Stack.{stack_tag, stack_node, stack_start};

use words::quadwords::word_in;

// The tags: a node of one part, one of two parts whose first is evaluated, one whose second is, and an open box. Numbers and no enum:
// they are words of lent memory, which may hold any other (`stack_tag` of specs/Stack).
pub(crate) const ONLY: usize = 0;

pub(crate) const FIRST: usize = 1;

pub(crate) const SECOND: usize = 2;

pub const OPENED: usize = 3;

// The word of an entry that is not used.
pub const UNUSED: usize = 0;

// The tag of entry i; 0 past the end.
pub(crate) fn stack_tag(stack: &[u8], i: usize) -> usize
    ensures value { result ≡ stack_tag (quadword_at (quadwords_in stack.now) i) }
    ensures upper_bound { result < 65536 }
{
    word_in(stack, i, 0)
}

// The place of the node of entry i; 0 past the end.
pub fn stack_node(stack: &[u8], i: usize) -> usize
    ensures value { result ≡ stack_node (quadword_at (quadwords_in stack.now) i) }
    ensures upper_bound { result < 65536 }
{
    word_in(stack, i, 1)
}

// The place where the second part of the node of entry i starts, or the frame above its open box; 0 past the end.
pub fn stack_start(stack: &[u8], i: usize) -> usize
    ensures value { result ≡ stack_start (quadword_at (quadwords_in stack.now) i) }
    ensures upper_bound { result < 65536 }
{
    word_in(stack, i, 2)
}
