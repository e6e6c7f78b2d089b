//! The sum that the demo's line tells.
ghost use Rattle.std.specs.Prelude.{◌≡◌, ◌%◌, ◌^◌, map, sum};
ghost use Rattle.demo_program.specs.Sum.{wrapped_sum};

// The sum of a list's words, modulo 2^32.
fn list_sum(words: &[u32]) -> u32
    ensures { result ≡ sum words.now % 2 ^ 32 }
{
    let mut total: u32 = 0;
    for word in words {
        total = total.wrapping_add(*word);
    }
    total
}

/// The sum of the words of all lists, modulo 2^32.
pub fn wrapped_sum(lists: &[Vec<u32>]) -> u32
    ensures { result ≡ wrapped_sum (map (λ l. l.items) lists.now) }
{
    let mut total: u32 = 0;
    for list in lists {
        total = total.wrapping_add(list_sum(list));
    }
    total
}
