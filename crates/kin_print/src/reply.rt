//! Replies to questions.

ghost use Rattle.std.specs.Prelude.{◌≡◌, ◌++◌, OnOk, OnErr};
ghost use Rattle.kin_script.specs.Printed.{PutsFront};
ghost use Rattle.kin_print.specs.Replies.{reply_line};

use crate::line::{put_count, put_one};
use crate::list::{put_list, put_pair, put_pairs};
use kin_num::NoMemory;

/// What a question is answered with.
#[derive(Debug, Drop)]
pub enum Reply {
    /// Numbers in their order.
    List(Vec<u32>),
    /// A number, if there is one.
    One(Option<u32>),
    /// Two numbers, if there are two.
    Pair(Option<(u32, u32)>),
    /// Pairs of numbers in their order.
    Pairs(Vec<(u32, u32)>),
    /// How many there are.
    Count(u64),
}

/// Appends a reply as a line, or pairs as a line each.
pub fn put_reply(out: &mut Vec<u8>, reply: &Reply) -> Result<(), NoMemory>
    ensures ok { OnOk result (out.new.items ≡ out.old.items ++ reply_line reply.now) }
    ensures err { OnErr result (PutsFront out.old.items out.new.items (reply_line reply.now)) }
{
    match reply {
        Reply::List(numbers) => put_list(out, numbers),
        Reply::One(one) => put_one(out, *one),
        Reply::Pair(pair) => put_pair(out, *pair),
        Reply::Pairs(pairs) => put_pairs(out, pairs),
        Reply::Count(n) => put_count(out, *n),
    }
}
