// The description that `receive` holds.

ghost use Rattle.std.specs.Prelude.{◌≤◌, length};
ghost use Rattle.code.specs.declared.TheConstants.{LONGEST};

use code::LONGEST;

// The description that is held: the first `size` bytes of a lent buffer, and none if `size` is 0. The buffer has room for the longest description.
#[derive(Drop)]
pub struct Held<'a> {
    pub buffer: &'a mut [u8],
    pub size: usize,
    ghost fits: { size ≤ length buffer.now },
    ghost room: { LONGEST ≤ length buffer.now },
}

impl Held<'_> {
    ghost use Rattle.std.specs.Prelude.{◌≡◌};
    ghost use Rattle.receive_record.specs.Clauses.{held_bytes};

    // The description's bytes.
    pub fn bytes(&self) -> &[u8]
        ensures { result.now ≡ held_bytes self.now }
    {
        &self.buffer[..self.size]
    }

    // Holds another description from now on.
    pub fn hold(&mut self, bytes: &[u8])
        requires { length bytes.now ≤ LONGEST }
        ensures same_buffer { self.new.buffer.ghost_name ≡ self.old.buffer.ghost_name }
        ensures held { held_bytes self.new ≡ bytes.now }
    {
        let size = bytes.len();
        arrays::copy(bytes, 0, self.buffer, 0, size);
        self.size = size;
    }
}
