// Writing a name block: its count, then its two arrays. Rows that do not fill the block leave it all zero, and stacking then refuses it with 14.
ghost use Rattle.std.specs.Prelude.{◌≤◌};

use arrayvec::ArrayVec;
use records::Entry;

// A layer of the stack: a name, its height, and its thickness, if any.
pub type Layer<'a> = (&'a str, f64, Option<f64>);

// A via: a name, the layer below and the one above.
pub type Via<'a> = (&'a str, &'a str, &'a str);

#[derive(Drop)]
struct Block<const N: usize> {
    bytes: ArrayVec<u8, N>,
}

impl<const N: usize> Block<N> {
    // A block of so many rows, of which none is written.
    fn of(rows: usize) -> Self {
        let mut block = Block {
            bytes: ArrayVec::new(),
        };
        block.put(&u16::try_from(rows).unwrap_or(u16::MAX).to_le_bytes());
        block
    }

    fn put(&mut self, bytes: &[u8]) {
        let _ = self.bytes.try_extend_from_slice(bytes);
    }

    // A name, and zeros up to 32 bytes.
    fn put_name(&mut self, name: &str) {
        let mut cell = [0; 32];
        for (to, from) in cell.iter_mut().zip(name.as_bytes()) {
            *to = *from;
        }
        self.put(&cell);
    }

    fn put_figure(&mut self, figure: f64) {
        self.put(&figure.word().to_le_bytes());
    }

    // The block, once its rows fill it.
    fn whole(self) -> [u8; N] {
        self.bytes.into_inner().unwrap_or([0; N])
    }
}

// Layers' numbers and names.
pub fn layers<const N: usize>(rows: &[(u8, &str)]) -> [u8; N]
    requires { N ≤ 4096 }
{
    let mut block = Block::of(rows.len());
    rows.iter().for_each(|(layer, _)| block.put(&[*layer, 0]));
    rows.iter().for_each(|(_, name)| block.put_name(name));
    block.whole()
}

// A map from logical names to physical ones.
pub fn names<const N: usize>(rows: &[(&str, &str)]) -> [u8; N]
    requires { N ≤ 4096 }
{
    let mut block = Block::of(rows.len());
    rows.iter().for_each(|(logical, _)| block.put_name(logical));
    rows.iter()
        .for_each(|(_, physical)| block.put_name(physical));
    block.whole()
}

// Conductors or diffusions.
pub fn stack<const N: usize>(rows: &[Layer<'_>]) -> [u8; N]
    requires { N ≤ 4096 }
{
    let mut block = Block::of(rows.len());
    rows.iter().for_each(|(name, _, _)| block.put_name(name));
    rows.iter().for_each(|(_, height, thickness)| {
        // Which figures are present: the height always.
        block.put(&[if thickness.is_some() { 3 } else { 1 }]);
        block.put_figure(*height);
        block.put_figure(thickness.unwrap_or(0.0));
    });
    block.whole()
}

// Vias.
pub fn vias<const N: usize>(rows: &[Via<'_>]) -> [u8; N]
    requires { N ≤ 4096 }
{
    let mut block = Block::of(rows.len());
    rows.iter().for_each(|(name, _, _)| block.put_name(name));
    rows.iter().for_each(|(_, bottom, top)| {
        block.put_name(bottom);
        block.put_name(top);
    });
    block.whole()
}
