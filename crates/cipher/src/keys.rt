// The kinds of eight bytes that SP 500-54 keeps apart. An operation names the kind that it takes, and takes no other.

// Kept by a facility for an interchange. It enciphers nothing as it stands: it is notarized with a pair of users first.
#[derive(Clone, Copy, PartialEq, Eq)]
pub struct InterchangeKey(pub [u8; 8]);

// An interchange key notarized with the pair (sender, receiver). It seals data keys and passwords.
#[derive(Clone, Copy, PartialEq, Eq)]
pub struct NotarizedKey(pub [u8; 8]);

// It enciphers data and initialization vectors.
#[derive(Clone, Copy, PartialEq, Eq)]
pub struct DataKey(pub [u8; 8]);

// An initialization vector.
#[derive(Clone, Copy, PartialEq, Eq)]
pub struct Vector(pub [u8; 8]);
