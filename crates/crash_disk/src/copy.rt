ghost use Rattle.std.specs.Prelude.{◌≡◌, ◌≤◌, ◌+◌, length, vec_len};
ghost use Rattle.std.specs.Vec.{vec_capacity};
ghost use Rattle.crash_disk.specs.Disk.{with_write};

/// Writes bytes over what is there and past the end. There is room for them.
pub fn overwrite(content: &mut Vec<u8>, place: usize, bytes: &[u8])
    requires within { place ≤ vec_len content.old }
    requires fits { vec_len content.old + length bytes.now ≤ vec_capacity content.old }
    ensures items { content.new.items ≡ with_write content.old.items place bytes.now }
    ensures len { vec_len content.new ≤ vec_len content.old + length bytes.now }
    ensures room { vec_capacity content.old ≤ vec_capacity content.new }
{
    let over = bytes.len().min(content.len() - place);
    content[place..place + over].copy_from_slice(&bytes[..over]);
    content.extend_from_slice(&bytes[over..]).unwrap();
}
