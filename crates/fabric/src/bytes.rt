//! Bytes one after another, in fixed memory.
ghost use Rattle.std.specs.Prelude.{◌≡◌, ◌<◌, ◌≤◌, ◌∷◌, [], ◌++◌, length, take};

/// Up to `N` bytes, one after another: the labels of a path, the records of a chart.
// They are the first `used` of the memory. There is no model: of a path or a chart that held one, this kit would prove no second use by value.
#[derive(Clone, Copy)]
pub(crate) struct Bytes<const N: usize> {
    memory: [u8; N],
    used: usize,
    ghost fits: { used ≤ N },
}

impl<const N: usize> Bytes<N> {
    pub(crate) fn of(bytes: &[u8]) -> Bytes<N>
        requires { length bytes.now ≤ N }
        ensures { take result.used result.memory ≡ bytes.now }
    {
        let used = bytes.len();
        let mut memory = [0; N];
        memory[..used].copy_from_slice(bytes);
        Bytes { memory, used }
    }

    pub(crate) fn as_slice(&self) -> &[u8]
        ensures { result.now ≡ take self.now.used self.now.memory }
    {
        &self.memory[..self.used]
    }

    pub(crate) fn push(&mut self, byte: u8)
        requires { length (take self.old.used self.old.memory) < N }
        ensures { take self.new.used self.new.memory ≡ take self.old.used self.old.memory ++ byte ∷ [] }
    {
        self.memory[self.used] = byte;
        self.used += 1;
    }
}
