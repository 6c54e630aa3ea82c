// Passwords: sealed in their entries, compared, and moved to a new key.
ghost use Rattle.std.specs.Prelude.{◌≡◌};
ghost use Rattle.table.specs.Entries.{entry_of};
ghost use Rattle.table.specs.Passwords.{big, sealed, authentic, moved_entry, moved};

use crate::entries::{entry_at, entry_of, id_of, kept_in, put_at};
use cipher::block::{seal, unseal};
use cipher::keys::InterchangeKey;
use keys::notarize;

pub fn is_big(user: u32) -> bool
    ensures { result ≡ big user }
{
    268435455 < user
}

// A password as its entry keeps it: sealed with the pair (user, user).
pub fn seal_password(key: InterchangeKey, user: u32, password: [u8; 8]) -> [u8; 8]
    ensures { result ≡ sealed key.0 user password }
{
    seal(notarize(key, user, user), password)
}

// The user has an entry, and it keeps this password.
pub fn is_authentic(t: &[u8], key: InterchangeKey, user: u32, password: [u8; 8]) -> bool
    ensures { result ≡ authentic key.0 user password (entry_of user t.now) }
{
    match entry_of(t, user) {
        Some(kept) => kept == seal_password(key, user, password),
        None => false,
    }
}

// The entry with its password under the current key; a free entry and one that matches nobody stay.
fn moved_entry(entry: [u8; 12], old: InterchangeKey, current: InterchangeKey) -> [u8; 12]
    ensures { result ≡ moved_entry old.0 current.0 entry }
{
    let user = id_of(entry);
    if is_big(user) {
        return entry;
    }
    let password = unseal(notarize(old, user, user), kept_in(entry));
    let mut moved = entry;
    put_at(&mut moved, 4, &seal_password(current, user, password));
    moved
}

// Every entry from the old key to the current one: by number, since of what `chunks_exact_mut`
// leaves in a slice a proof knows the length alone.
pub fn move_all(t: &mut [u8], old: InterchangeKey, current: InterchangeKey)
    ensures { t.new ≡ moved old.0 current.0 t.old }
{
    for k in 0..t.len() / 12 {
        let entry = moved_entry(entry_at(t, k), old, current);
        put_at(t, k * 12, &entry);
    }
}
