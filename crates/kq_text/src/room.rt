//! Text for which there is room already: it takes no memory, and so it cannot fail.

ghost use Rattle.std.specs.Prelude.{length};
ghost use Rattle.kq_text.specs.Adds.{Adds};
ghost use Rattle.kq_text.specs.Room.{HasRoom, TakesAtMost};

/// Adds a text.
pub fn push(out: &mut Vec<u8>, text: &str)
    requires { HasRoom out.old (length text.now) }
    ensures text { Adds out.old.items text.now out.new.items }
    ensures room { TakesAtMost out.old out.new (length text.now) }
{
    match out.extend_from_slice(text.as_bytes()) {
        Ok(()) => {}
        Err(_) => unreachable!(),
    }
}

/// Adds an integer in decimal digits.
pub fn push_number<I: itoa::Integer>(out: &mut Vec<u8>, number: I)
    requires { HasRoom out.old I.MAX_STR_LEN }
    ensures text { Adds out.old.items (I.text number) out.new.items }
    ensures room { TakesAtMost out.old out.new I.MAX_STR_LEN }
{
    push(out, itoa::Buffer::new().format(number))
}
