// Entries: a four-byte identifier, high byte first, and eight bytes.
ghost use Rattle.std.specs.Prelude.{◌≡◌, ◌++◌, ◌+◌, ◌*◌, ◌/◌, ◌≤◌, length, take, drop, is_some, position, IfSome};
ghost use Rattle.ground.specs.Rows.{digits};
ghost use Rattle.table.specs.Entries.{fits, id_of, entries, is_of, entry_of, enter, enrol_in, enrolled};
ghost use Rattle.table.specs.Located.{Entered};

// Four bytes FF mark a free entry.
pub const FREE: u32 = 0xFFFF_FFFF;

pub fn is_fit(length: usize) -> bool
    ensures { result ≡ fits length }
{
    length % 12 == 0 && length <= 49152
}

pub fn id_bytes(user: u32) -> [u8; 4]
    ensures { result ≡ digits 256 4 user }
{
    user.to_be_bytes()
}

pub(crate) fn id_of(entry: [u8; 12]) -> u32
    ensures { result ≡ id_of entry }
{
    let [a, b, c, d, ..] = entry;
    u32::from_be_bytes([a, b, c, d])
}

// The first entry of the user.
fn index_of(t: &[u8], user: u32) -> Option<usize>
    ensures found { result ≡ position (is_of user) (entries t.now) }
    ensures entered { Entered user t.now result }
    ensures inside { IfSome result (λ k. k * 12 + 12 ≤ length t.now) }
{
    t.as_chunks::<12>()
        .0
        .iter()
        .position(|entry| id_of(*entry) == user)
}

pub(crate) fn entry_at(t: &[u8], k: usize) -> [u8; 12]
    requires { k * 12 + 12 ≤ length t.now }
    ensures { result ≡ take 12 (drop (k * 12) t.now) }
{
    t.as_chunks::<12>().0[k]
}

// What an entry keeps: its last eight bytes.
pub(crate) fn kept_in(entry: [u8; 12]) -> [u8; 8]
    ensures { result ≡ take 8 (drop 4 entry) }
{
    let mut kept = [0; 8];
    kept.copy_from_slice(&entry[4..]);
    kept
}

// What the user's first entry keeps.
pub(crate) fn entry_of(t: &[u8], user: u32) -> Option<[u8; 8]>
    ensures { result ≡ entry_of user t.now }
{
    let k = index_of(t, user)?;
    Some(kept_in(entry_at(t, k)))
}

pub fn has_entry(t: &[u8], user: u32) -> bool
    ensures { result ≡ is_some (entry_of user t.now) }
{
    entry_of(t, user).is_some()
}

// The part over the bytes from `at` on.
pub(crate) fn put_at(t: &mut [u8], at: usize, part: &[u8])
    requires { at + length part.now ≤ length t.old }
    ensures { t.new ≡ take at t.old ++ (part.now ++ drop (at + length part.now) t.old) }
{
    t[at..at + part.len()].copy_from_slice(part);
}

// The user's entry, where there is one, gets the eight bytes.
pub fn set_entry(t: &mut [u8], user: u32, b: [u8; 8])
    ensures { t.new ≡ enter user b t.old }
{
    if let Some(k) = index_of(t, user) {
        put_at(t, k * 12 + 4, &b);
    }
}

fn entry_for(user: u32, b: [u8; 8]) -> [u8; 12]
    ensures { result ≡ digits 256 4 user ++ b }
{
    let mut entry = [0; 12];
    put_at(&mut entry, 0, &id_bytes(user));
    put_at(&mut entry, 4, &b);
    entry
}

// The first free entry, where there is one, becomes the user's.
fn take_free(t: &mut [u8], user: u32, b: [u8; 8])
    ensures { t.new ≡ enrol_in (length t.old / 12) user b t.old }
{
    if let Some(k) = index_of(t, FREE) {
        put_at(t, k * 12, &entry_for(user, b));
    }
}

// The user's entry, else the first free entry.
pub fn enrol(t: &mut [u8], user: u32, b: [u8; 8])
    ensures { t.new ≡ enrolled user b t.old }
{
    if has_entry(t, user) {
        set_entry(t, user, b);
    } else {
        take_free(t, user, b);
    }
}
