// Numbers of wires in a line, each behind a space.
ghost use Rattle.std.specs.Prelude.{◌+◌, ◌<◌, map};
ghost use Rattle.rules.specs.Circuits.{numbers};
ghost use Rattle.words.specs.Numbers.{words_at};
ghost use Rattle.text.specs.Text.{decimal, spaced};
ghost use Rattle.text.specs.Writer.{Writes};

use text::Writer;
use words::word_at;

// So many numbers from one on, each behind a space.
pub(crate) fn put_numbers(out: &mut Writer, first: usize, count: usize)
    requires { first + count < 4294967296 }
    ensures { Writes out.old (spaced (map decimal (numbers first count))) out.new }
{
    for i in 0..count {
        out.put_number(first + i);
    }
}

// So many numbers of two bytes, from a place of the listing on, each behind a space.
pub(crate) fn put_words(out: &mut Writer, listing: &[u8], from: usize, count: usize)
    requires from_bound { from < 134217728 }
    requires count_bound { count < 65536 }
    ensures { Writes out.old (spaced (map decimal (words_at listing.now from count))) out.new }
{
    for i in 0..count {
        out.put_number(word_at(listing, from + 2 * i));
    }
}
