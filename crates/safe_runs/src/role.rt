ghost use Rattle.std.specs.Prelude.{◌≡◌, map, string_bytes};
ghost use Rattle.safe_runs.specs.Runs.{role_named, role_of};

/// Whose coins are asked for.
#[derive(Clone, Copy, PartialEq, Eq)]
pub enum Role {
    Wallet,
    Watcher,
}

/// The role that the words name; `None` where they are no form.
pub fn role_of(words: &[String]) -> Option<Role>
    ensures { result ≡ role_of (map string_bytes words.now) }
{
    let [word] = words else {
        return None;
    };
    role_named(word.as_bytes())
}

// The role that a word names.
fn role_named(word: &[u8]) -> Option<Role>
    ensures { result ≡ role_named word.now }
{
    if word == b"wallet".as_slice() {
        return Some(Role::Wallet);
    }
    if word == b"watcher".as_slice() {
        return Some(Role::Watcher);
    }
    None
}
