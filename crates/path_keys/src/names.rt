//! Names in the bytes of texts and fields.

ghost use Rattle.std.specs.Prelude.{◌≡◌, ◌≢◌, ◌==◌, ◌<◌, ◌≤◌, ◌-◌, ℕ, length, slice_index};
ghost use Rattle.std.specs.List.{list_all, slice_split};
ghost use Rattle.store_model.specs.Lists.{zero_filled};
ghost use Rattle.store_model.specs.Paths as model;
ghost use Rattle.path_keys.specs.Fields.{with_zeros};

/// The bytes of a path's field in a key.
pub const FIELD_LEN: usize = 120;

/// The byte that stands in a field between a path and the name of its attribute. It is below each byte of a name.
pub const MARK: u8 = 1;

/// Whether a byte may stand in a name: printable ASCII other than the space and `/`.
fn is_name_byte(byte: u8) -> bool
    ensures { result ≡ model.is_name_byte byte }
{
    (0x21..=0x7e).contains(&byte) && byte != b'/'
}

/// Whether the bytes are a name.
pub fn is_name(bytes: &[u8]) -> bool
    ensures { result ≡ model.is_name bytes.now }
{
    !bytes.is_empty()
        && bytes.iter().all(|byte| is_name_byte(*byte))
        && bytes != b".".as_slice()
        && bytes != b"..".as_slice()
}

/// Whether the parts that the separator leaves are all names.
pub fn are_names(bytes: &[u8], separator: u8) -> bool
    ensures { result ≡ list_all model.is_name (slice_split (λ b. b == separator) bytes.now) }
{
    bytes
        .split(|byte| *byte == separator)
        .all(|part| is_name(part))
}

/// The field of the names that the separator parts: a byte 0 for each separator, and zeros behind.
pub fn field_of_names(text: &[u8], separator: u8) -> [u8; FIELD_LEN]
    requires { length text.now < FIELD_LEN }
    ensures { result ≡ zero_filled FIELD_LEN (with_zeros separator text.now) }
{
    let mut field = [0; FIELD_LEN];
    field[..text.len()].copy_from_slice(text);
    put_zeros(&mut field[..text.len()], separator);
    field
}

/// Writes a byte 0 over each separator.
fn put_zeros(bytes: &mut [u8], separator: u8)
    ensures { bytes.new ≡ with_zeros separator bytes.old }
{
    for byte in bytes.iter_mut() {
        if *byte == separator {
            *byte = 0;
        }
    }
}

/// Where the bytes behind the last byte 0 begin.
pub fn last_start(bytes: &[u8]) -> usize
    ensures within { result ≤ length bytes.now }
    ensures front { 0 < result → slice_index bytes.now (result - 1) ≡ 0 }
    ensures behind { (i : ℕ) → result ≤ i → i < length bytes.now → slice_index bytes.now i ≢ 0 }
{
    match bytes.iter().rposition(|byte| *byte == 0) {
        Some(at) => at + 1,
        None => 0,
    }
}

/// The length without the zeros at the end.
pub fn used_len(bytes: &[u8]) -> usize
    ensures within { result ≤ length bytes.now }
    ensures front { 0 < result → slice_index bytes.now (result - 1) ≢ 0 }
    ensures behind { (i : ℕ) → result ≤ i → i < length bytes.now → slice_index bytes.now i ≡ 0 }
{
    match bytes.iter().rposition(|byte| *byte != 0) {
        Some(at) => at + 1,
        None => 0,
    }
}
