ghost use Rattle.std.specs.Prelude.{◌≡◌, ◌≤◌, ◌+◌, ◌++◌, length, take, drop, vec_len};
ghost use Rattle.std.specs.Vec.{vec_capacity};
ghost use Rattle.crash_disk.specs.Undo.{before_write, IsReplaced, undone, IsUndoable};

// Keeps the bytes that a write of so many at a place replaces, fewer where it goes past the end. There is
// room for them.
pub fn keep(replaced: &mut Vec<u8>, content: &[u8], place: usize, count: usize)
    requires within { place ≤ length content.now }
    requires fits { vec_len replaced.old + count ≤ vec_capacity replaced.old }
    ensures items { replaced.new.items ≡ replaced.old.items ++ take count (drop place content.now) }
    ensures len { vec_len replaced.new ≤ vec_len replaced.old + count }
    ensures room { vec_capacity replaced.old ≤ vec_capacity replaced.new }
{
    let over = count.min(content.len() - place);
    replaced
        .extend_from_slice(&content[place..place + over])
        .unwrap();
}

// Undoes the write of a range, which replaced these bytes.
fn undo_write(content: &mut Vec<u8>, range: (u64, usize), replaced: &[u8])
    requires { IsReplaced range replaced.now content.old.items }
    ensures { content.new.items ≡ before_write range replaced.now content.old.items }
{
    let start = range.0 as usize;
    let end = start + replaced.len();
    content[start..end].copy_from_slice(replaced);
    if replaced.len() < range.1 {
        content.truncate(end);
    }
}

// Undoes the writes of these ranges, the newest first. What each replaced starts at its place in the list of
// all that they replaced.
pub fn undo(content: &mut Vec<u8>, ranges: &[(u64, usize)], starts: &[usize], replaced: &[u8])
    requires same { length starts.now ≡ length ranges.now }
    requires undoable { IsUndoable (length ranges.now) ranges.now starts.now replaced.now content.old.items }
    ensures { content.new.items
        ≡ undone (length ranges.now) ranges.now starts.now replaced.now content.old.items }
{
    let mut left = replaced;
    for index in (0..ranges.len()).rev() {
        let (older, newest) = left.split_at(starts[index]);
        undo_write(content, ranges[index], newest);
        left = older;
    }
}
