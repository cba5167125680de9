//! Files that are held in memory, of which one is read at a time.
ghost use Rattle.std.specs.Prelude.{◌≡◌, ◌<◌, ◌+◌, ◌++◌, ◌^◌, Some, None, length, take, min, is_some, position};
ghost use Rattle.std.specs.Str.{bytes_eq};
ghost use Rattle.duct_ports.specs.NamedFiles.{is_held, contents_of, rest_of, bytes_from};

use duct_units::List;
use std::marker::Model;

/// A name and the bytes that it holds.
#[derive(Debug, Drop)]
pub struct HeldFile {
    /// The name by which it is asked for.
    pub name: List<u8>,
    /// What it holds.
    pub bytes: List<u8>,
}

/// The files, and what is left of the one that is started.
#[derive(Drop)]
pub struct HeldFiles {
    files: List<HeldFile>,
    // The started file's place in the list, and how many of its bytes were read.
    place: Option<(usize, usize)>,
}

impl Model for HeldFiles {
    ghost use Rattle.duct_ports.specs.NamedFiles.{Opened};

    ghost Value = { Opened };

    ghost use Rattle.duct_ports.specs.OpenedPlace.{opened};

    ghost view = { opened };
}

impl HeldFiles {
    pub fn new(files: List<HeldFile>) -> HeldFiles
        ensures { result ≡ record { files = files; left = None } }
    {
        HeldFiles { files, place: None }
    }

    pub fn is_started(&self) -> bool
        ensures { result ≡ is_some self.now.left }
    {
        self.place.is_some()
    }

    /// Begins the file of the name, and answers whether there is one. A name that isn't held reads
    /// as empty.
    #[tactic(auto, using(crate::proofs::HeldLemmas::named_place))]
    pub fn start(&mut self, name: &[u8]) -> bool
        ensures held { result ≡ is_held self.old.files name.now }
        ensures begun { self.new
            ≡ record self.old { left = Some (contents_of self.old.files name.now) } }
    {
        let files = self.files.as_slice();
        let place = place_of(files, name);
        self.place = Some((place.unwrap_or(files.len()), 0));
        place.is_some()
    }

    pub fn stop(&mut self)
        ensures { self.new ≡ record self.old { left = None } }
    {
        self.place = None;
    }

    /// Moves as many of the bytes left as the buffer has room for. Where there are none, no file is
    /// started any more.
    #[tactic(auto, using(crate::proofs::HeldLemmas::reads_more))]
    pub fn read(&mut self, buf: &mut [u8]) -> usize
        requires { 0 < length buf.old }
        ensures count { result ≡ min (length buf.old) (length (rest_of self.old.left)) }
        ensures bytes { rest_of self.old.left ≡ take result buf.new ++ rest_of self.new.left }
        ensures ended { result ≡ 0 → self.new.left ≡ None }
        ensures kept { self.new.files ≡ self.old.files }
    {
        let (index, at) = match self.place {
            Some(place) => place,
            None => return 0,
        };
        let left = bytes_from(self.files.as_slice(), index, at);
        let count = left.len().min(buf.len());
        if count == 0 {
            self.place = None;
            return 0;
        }
        buf[..count].copy_from_slice(&left[..count]);
        self.place = Some((index, at + count));
        count
    }
}

/// The place of the first file of the name.
fn place_of(files: &[HeldFile], name: &[u8]) -> Option<usize>
    ensures { result ≡ position (λ file. bytes_eq file.name name.now) files.now }
{
    files.iter().position(|file| file.name.as_slice() == name)
}

/// The bytes of a file from a place on; none past the last file.
fn bytes_from(files: &[HeldFile], index: usize, at: usize) -> &[u8]
    ensures rest { result.now ≡ bytes_from files.now (index, at) }
    ensures fits { 0 < length result.now → at + length result.now < 2 ^ 64 }
{
    match files.get(index) {
        Some(file) => {
            let bytes = file.bytes.as_slice();
            if at < bytes.len() { &bytes[at..] } else { &[] }
        }
        None => &[],
    }
}
