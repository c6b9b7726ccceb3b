//! A lemma that workers send to each other: a clause of at most 8 literals, in place.
ghost use Rattle.std.specs.Prelude.{◌≡◌, ◌≤◌, length};

/// The most literals of a lemma that is sent.
const MOST: usize = 8;

/// A clause of at most 8 literals: the first `len` of the places. Nobody trusts what it says, so a
/// greater `len` is no fault of the type; who reads one looks first.
#[derive(Clone, Copy, Debug)]
pub struct Lemma {
    pub len: u8,
    pub lits: [i32; 8],
}

impl Lemma {
    ghost use Rattle.prefix_jobs.specs.Lemmas.{lemma_lits};

    /// The lemma of these literals.
    pub fn of(lits: &[i32]) -> Lemma
        requires { length lits.now ≤ 8 }
        ensures short { result.len ≤ 8 }
        ensures same { lemma_lits result ≡ lits.now }
    {
        let mut places = [0i32; MOST];
        places[..lits.len()].copy_from_slice(lits);
        Lemma {
            len: lits.len() as u8,
            lits: places,
        }
    }

    /// Its literals.
    pub fn lits(&self) -> &[i32]
        requires { self.now.len ≤ 8 }
        ensures { result.now ≡ lemma_lits self.now }
    {
        &self.lits[..self.len as usize]
    }
}
