//! Bytes that are lent to C.

ghost use Rattle.std.specs.Prelude.{◌≡◌, length};
ghost use Rattle.c_handles.specs.Lent.{LieIn};

/// Where bytes lie. It owns nothing.
#[repr(C)]
#[derive(Drop)]
pub struct Bytes {
    pub at: *const u8,
    pub len: usize,
}

impl Bytes {
    /// Where the bytes of a buffer lie. (A slice wouldn't do: no contract says where its bytes lie.)
    pub fn of_buffer(buffer: &Vec<u8>) -> Bytes
        ensures { LieIn result buffer.now }
    {
        Bytes {
            at: buffer.as_ptr(),
            len: buffer.len(),
        }
    }

    /// Where these bytes lie.
    pub fn of(bytes: &[u8]) -> Bytes
        ensures { result.len ≡ length bytes.now }
    {
        let at = bytes.as_ptr();
        let len = bytes.len();
        Bytes { at, len }
    }
}
