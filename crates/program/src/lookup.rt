//! Look-up: where the versions, blocks and instructions of a program stand, and what their records say.
ghost use Rattle.std.specs.Prelude.{◌≡◌, ◌<◌, eqb, leb, length};
ghost use Rattle.layout.specs.Tests.{◌and◌};
ghost use Rattle.layout.specs.Records.{records, kind_at, body_at, ◌!◌};
ghost use Rattle.layout.specs.Kinds as kind;
ghost use Rattle.program.specs.Program.{program, has_function, mark_of};
ghost use Rattle.program.specs.Places.{version_at, version_place, block_place, is_line, table_of, slot_of, listed_in, function_in};

use layout::records::Records;

/// The entries of the table of versions: 4 for each function.
pub const TABLE: usize = 128;

/// Is the record at `p` the VERSION `w` of the function `f`?
fn is_version(image: &[u8], p: usize, f: usize, w: usize) -> bool
    ensures { result ≡ (eqb (kind_at image.now p) kind.VERSION and eqb (body_at image.now p ! 0) f and eqb (body_at image.now p ! 1) w) }
{
    if layout::kind_at(image, p) != layout::kinds::VERSION {
        return false;
    }
    if layout::field(image, p, 0) != f {
        return false;
    }
    layout::field(image, p, 1) == w
}

/// Where the version `w` of the function `f` stands.
pub fn version(image: &[u8], f: usize, w: usize) -> Option<usize>
    ensures { result ≡ version_place image.now f w }
{
    for record in Records::of(image) {
        if record.size == 0 {
            return None;
        }
        if is_version(image, record.at, f, w) {
            return Some(record.at);
        }
    }
    None
}

/// Where the block `b` of the version at `v` stands.
pub fn block(image: &[u8], v: usize, b: usize) -> Option<usize>
    ensures { result ≡ block_place image.now v b }
{
    if image.len() <= v {
        return None;
    }
    let mut left = b;
    for record in Records::behind(image, v) {
        if record.size == 0 {
            return None;
        }
        let k = layout::kind_at(image, record.at);
        if k == layout::kinds::VERSION {
            return None;
        }
        if k == layout::kinds::BLOCK {
            if left == 0 {
                return Some(record.at);
            }
            left -= 1;
        }
    }
    None
}

/// Does an instruction's record stand at `p`?
pub fn is_line(image: &[u8], p: usize) -> bool
    ensures { result ≡ is_line image.now p }
{
    if image.len() <= p {
        return false;
    }
    if layout::size_at(image, p) == 0 {
        return false;
    }
    let k = layout::kind_at(image, p);
    if k == layout::kinds::VERSION {
        return false;
    }
    k != layout::kinds::BLOCK
}

/// How many parameters the version at `v` has.
pub fn parameters(image: &[u8], v: usize) -> usize
    ensures { (result ≡ (version_at image.now v).parameters) × (result < 256) }
{
    layout::field(image, v, 2)
}

/// How many registers the version at `v` has.
pub fn registers(image: &[u8], v: usize) -> usize
    ensures { (result ≡ length (version_at image.now v).types) × (result < 256) }
{
    layout::field(image, v, 3)
}

/// The type of the register `r` of the version at `v`, or 0 where it has no such register.
pub fn type_of(image: &[u8], v: usize, r: usize) -> usize
    ensures { (result ≡ (version_at image.now v).types ! r) × (result < 256) }
{
    if r < layout::field(image, v, 3) {
        layout::field(image, v, 6 + r)
    } else {
        0
    }
}

/// The mark of the version at `v`: that of its block 0.
pub fn mark(image: &[u8], v: usize) -> usize
    ensures { (result ≡ mark_of (version_at image.now v)) × (result < 256) }
{
    let Some(b) = block(image, v, 0) else {
        return 0;
    };
    layout::field(image, b, 0)
}

/// The level of the version at `v`: that of the LEVEL right behind it, or 0 where none stands there.
pub fn level(image: &[u8], v: usize) -> usize
    ensures { (result ≡ (version_at image.now v).level) × (result < 256) }
{
    if image.len() <= v {
        return 0;
    }
    let p = v + layout::size_at(image, v);
    let stated = layout::byte(image, p + 4);
    if stated == 0 {
        return 0;
    }
    if layout::size_at(image, p) <= 4 {
        return 0;
    }
    if layout::kind_at(image, p) == layout::kinds::LEVEL {
        stated
    } else {
        0
    }
}

/// Is the level of the version at `v` not above that of the version at `own`? A level of 0 is above none.
pub fn not_above(image: &[u8], v: usize, own: usize) -> bool
    ensures { result ≡ leb (version_at image.now v).level (version_at image.now own).level }
{
    let called = level(image, v);
    if called == 0 {
        return true;
    }
    called <= level(image, own)
}

/// Has the function `f` a version? The image is searched.
fn search_function(image: &[u8], f: usize) -> bool
    ensures { result ≡ has_function f (program (records image.now)) }
{
    for record in Records::of(image) {
        if record.size == 0 {
            return false;
        }
        if layout::kind_at(image, record.at) == layout::kinds::VERSION {
            if layout::field(image, record.at, 0) == f {
                return true;
            }
        }
    }
    false
}

/// The table of the versions that the bounds allow: the offset of each at 4 × function + version, the image length where there is none.
#[inline(never)] // its stack, with the table that it fills, is given back before the table is used
pub fn versions(image: &[u8]) -> [usize; 128]
    ensures { result ≡ table_of image.now }
{
    let end = image.len();
    let mut table = [end; 128];
    for record in Records::of(image) {
        if record.size == 0 {
            return table;
        }
        let k = slot(image, record.at);
        if k < TABLE {
            if table[k] == end {
                table[k] = record.at;
            }
        }
    }
    table
}

/// The entry that a VERSION at `p` has in the table; 128 where it has none.
fn slot(image: &[u8], p: usize) -> usize
    ensures { result ≡ slot_of image.now p }
{
    if layout::kind_at(image, p) != layout::kinds::VERSION {
        return TABLE;
    }
    let f = layout::field(image, p, 0);
    let w = layout::field(image, p, 1);
    if layout::bounds::FUNCTIONS <= f {
        return TABLE;
    }
    if layout::bounds::VERSIONS <= w {
        return TABLE;
    }
    layout::bounds::VERSIONS * f + w
}

/// Where the table says that the version `w` of the function `f` stands. By the image's own table it is where the version stands.
pub fn listed(image: &[u8], table: &[usize; 128], f: usize, w: usize) -> Option<usize>
    ensures { result ≡ listed_in image.now table.now f w }
{
    if layout::bounds::FUNCTIONS <= f {
        return version(image, f, w);
    }
    if layout::bounds::VERSIONS <= w {
        return version(image, f, w);
    }
    let p = table[layout::bounds::VERSIONS * f + w];
    if p < image.len() { Some(p) } else { None }
}

/// An image with the table of its versions.
#[derive(Clone, Copy)]
pub struct Tabled<'a> {
    pub image: &'a [u8],
    pub table: &'a [usize; 128],
    ghost listed: { table.now ≡ table_of image.now },
}

impl Tabled<'_> {
    /// Where the version `w` of the function `f` stands.
    pub fn version(self, f: usize, w: usize) -> Option<usize>
        ensures { result ≡ version_place self.entry.image.now f w }
    {
        listed(self.image, self.table, f, w)
    }

    /// Has the function `f` a version?
    pub fn has_function(self, f: usize) -> bool
        ensures { result ≡ has_function f (program (records self.entry.image.now)) }
    {
        has_function(self.image, self.table, f)
    }
}

/// Has the function `f` a version, by the table? By the image's own table it is whether the function has one.
pub fn has_function(image: &[u8], table: &[usize; 128], f: usize) -> bool
    ensures { result ≡ function_in image.now table.now f }
{
    if layout::bounds::FUNCTIONS <= f {
        return search_function(image, f);
    }
    if table[layout::bounds::VERSIONS * f] < image.len() {
        return true;
    }
    search_function(image, f)
}
