// A case on standard input and output: numbers and elements one after the other, the lowest byte first.
ghost use Rattle.std.specs.Prelude.{◌≤◌, ◌<◌};

use arrayvec::ArrayVec;
use float_bits::{bits_of, of_bits};
use little::{put, u32_at, u64_at};
use reading::fill;
use std::io;
use std::io::Read;

// What a slice holds, in a cell of SIZE bytes.
pub trait Element: Copy + Default + Drop {
    const SIZE: usize;

    fn of(cell: &[u8]) -> Self;

    fn put(self, cell: &mut [u8]);
}

impl Element for u32 {
    const SIZE: usize = 4;

    fn of(cell: &[u8]) -> u32 {
        u32_at(cell, 0)
    }

    fn put(self, cell: &mut [u8]) {
        put(u64::from(self), 4, 0, cell);
    }
}

impl Element for f64 {
    const SIZE: usize = 8;

    fn of(cell: &[u8]) -> f64 {
        of_bits(u64_at(cell, 0))
    }

    fn put(self, cell: &mut [u8]) {
        put(bits_of(self), 8, 0, cell);
    }
}

// No slice of a case is longer. Each lies in memory of this size, as there is no heap.
fn capped(length: u32) -> usize
    ensures { result ≤ 4096 }
{
    length.min(4096) as usize
}

// A cell is not empty, which a trait's constant does not say by itself.
fn cell_size<T: Element>() -> usize
    ensures { 0 < result }
{
    T::SIZE.max(1)
}

// The bytes of n elements, as far as there is room.
fn part<T: Element>(n: usize, bytes: &mut [u8]) -> &mut [u8] {
    let end = n.saturating_mul(T::SIZE).min(bytes.len());
    &mut bytes[..end]
}

// Where the input ends, the missing bytes are 0. A slice's bytes are read at once.
fn read_slice<T: Element, R: Read>(
    input: &mut R,
    length: u32,
    bytes: &mut [u8],
    slice: &mut ArrayVec<T, 4096>,
) -> io::Result<()> {
    let bytes = part::<T>(capped(length), bytes);
    let (got, ended) = fill(input, bytes);
    ended?;
    bytes[got..].fill(0);
    slice.clear();
    for cell in bytes.chunks_exact(cell_size::<T>()) {
        if slice.try_push(T::of(cell)).is_err() {
            break;
        }
    }
    Ok(())
}

// A slice's bytes are written at once.
fn write_slice<T: Element>(rt: &impl Print, slice: &[T], bytes: &mut [u8]) -> io::Result<()> {
    for (cell, &element) in bytes.chunks_exact_mut(cell_size::<T>()).zip(slice) {
        element.put(cell);
    }
    rt.write_all(part::<T>(slice.len(), bytes))
}

// What a case begins with: its call, four numbers, and the lengths of its slices.
#[derive(Clone, Copy)]
pub struct Head {
    pub call: u32,
    pub m: usize,
    pub n: usize,
    pub d: usize,
    pub e: usize,
    words: [u32; 10],
    values: [u32; 4],
}

fn numbers<const N: usize>(raw: &[u8]) -> [u32; N] {
    let mut numbers = [0; N];
    for (number, bytes) in numbers.iter_mut().zip(raw.chunks_exact(4)) {
        *number = u32_at(bytes, 0);
    }
    numbers
}

impl Head {
    // None where the input ends first.
    pub fn read<R: Read>(input: &mut R) -> io::Result<Option<Head>> {
        let mut raw = [0u8; 80];
        let (n, ended) = fill(input, &mut raw);
        ended?;
        if n < 80 {
            return Ok(None);
        }
        Ok(Some(Head {
            call: u32_at(&raw, 0),
            m: u32_at(&raw, 4) as usize,
            n: u32_at(&raw, 8) as usize,
            d: u32_at(&raw, 12) as usize,
            e: u32_at(&raw, 16) as usize,
            words: numbers(&raw[24..64]),
            values: numbers(&raw[64..]),
        }))
    }
}

// The slices of a case, which oracle/FORM.md names, and the bytes of the longest.
#[derive(Drop)]
pub struct Case {
    pub s0: ArrayVec<u32, 4096>,
    pub s1: ArrayVec<u32, 4096>,
    pub s2: ArrayVec<u32, 4096>,
    pub s3: ArrayVec<u32, 4096>,
    pub s4: ArrayVec<u32, 4096>,
    pub s5: ArrayVec<u32, 4096>,
    pub s6: ArrayVec<u32, 4096>,
    pub w1: ArrayVec<u32, 4096>,
    pub w2: ArrayVec<u32, 4096>,
    pub w3: ArrayVec<u32, 4096>,
    pub v: ArrayVec<f64, 4096>,
    pub b: ArrayVec<f64, 4096>,
    pub o: ArrayVec<f64, 4096>,
    pub x: ArrayVec<f64, 4096>,
    bytes: [u8; 32768],
}

impl Case {
    pub fn new() -> Case {
        Case {
            s0: ArrayVec::new(),
            s1: ArrayVec::new(),
            s2: ArrayVec::new(),
            s3: ArrayVec::new(),
            s4: ArrayVec::new(),
            s5: ArrayVec::new(),
            s6: ArrayVec::new(),
            w1: ArrayVec::new(),
            w2: ArrayVec::new(),
            w3: ArrayVec::new(),
            v: ArrayVec::new(),
            b: ArrayVec::new(),
            o: ArrayVec::new(),
            x: ArrayVec::new(),
            bytes: [0; 32768],
        }
    }

    pub fn read<R: Read>(&mut self, input: &mut R, head: &Head) -> io::Result<()> {
        let bytes = &mut self.bytes;
        let [s0, s1, s2, s3, s4, s5, s6, w1, w2, w3] = head.words;
        read_slice(input, s0, bytes, &mut self.s0)?;
        read_slice(input, s1, bytes, &mut self.s1)?;
        read_slice(input, s2, bytes, &mut self.s2)?;
        read_slice(input, s3, bytes, &mut self.s3)?;
        read_slice(input, s4, bytes, &mut self.s4)?;
        read_slice(input, s5, bytes, &mut self.s5)?;
        read_slice(input, s6, bytes, &mut self.s6)?;
        read_slice(input, w1, bytes, &mut self.w1)?;
        read_slice(input, w2, bytes, &mut self.w2)?;
        read_slice(input, w3, bytes, &mut self.w3)?;
        let [v, b, o, x] = head.values;
        read_slice(input, v, bytes, &mut self.v)?;
        read_slice(input, b, bytes, &mut self.b)?;
        read_slice(input, o, bytes, &mut self.o)?;
        read_slice(input, x, bytes, &mut self.x)
    }

    pub fn write(
        &mut self,
        rt: &impl Print,
        number: u32,
        column: u32,
        pivot: f64,
    ) -> io::Result<()> {
        let bytes = &mut self.bytes;
        number.put(&mut bytes[..4]);
        column.put(&mut bytes[4..8]);
        pivot.put(&mut bytes[8..16]);
        rt.write_all(&bytes[..16])?;
        let words = [
            &self.s0, &self.s1, &self.s2, &self.s3, &self.s4, &self.s5, &self.s6, &self.w1,
            &self.w2, &self.w3,
        ];
        for slice in words {
            write_slice(rt, slice, bytes)?;
        }
        for slice in [&self.v, &self.b, &self.o, &self.x] {
            write_slice(rt, slice, bytes)?;
        }
        Ok(())
    }
}
