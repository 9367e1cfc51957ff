ghost use Rattle.std.specs.Prelude.{◌≡◌, ◌<◌, ◌≤◌, ◌+◌, ◌-◌, length, vec_len, vec_capacity};
ghost use Rattle.fal_base.specs.Marks.{last_mark as mark_last, with_mark as marks_with, mark_place};

use crate::mark::Mark;

/// The client's last mark among marks in the order of the clients' numbers. None exactly where it has none. Takes no memory.
pub fn last_mark(marks: &[(u8, Mark)], client: u8) -> Option<Mark>
    ensures { result ≡ mark_last marks.now client }
{
    let mut rest = marks;
    while let Some((first, others)) = rest.split_first() {
        if client == first.0 {
            return Some(first.1);
        }
        rest = others;
    }
    None
}

// The place of the first client that is not below this one.
fn place(marks: &[(u8, Mark)], client: u8) -> usize
    ensures place { result ≡ mark_place client marks.now }
    ensures within { result ≤ length marks.now }
{
    let mut at = 0;
    let mut rest = marks;
    while let Some((first, others)) = rest.split_first() {
        if client <= first.0 {
            return at;
        }
        at += 1;
        rest = others;
    }
    at
}

/// Keeps the mark as the client's last. Takes no memory: there is room for one more.
pub fn put_mark(marks: &mut Vec<(u8, Mark)>, client: u8, mark: Mark)
    requires { vec_len marks.old < vec_capacity marks.old }
    ensures marks { marks.new.items ≡ marks_with marks.old.items client mark }
    ensures room { vec_capacity marks.old - vec_len marks.old ≤ (vec_capacity marks.new - vec_len marks.new) + 1 }
{
    let at = place(marks, client);
    if at < marks.len() && client == marks[at].0 {
        marks[at].1 = mark;
    } else {
        let Ok(()) = marks.insert(at, (client, mark)) else {
            unreachable!()
        };
    }
}
