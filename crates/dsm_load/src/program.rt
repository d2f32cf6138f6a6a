//! The program of the large job.

ghost use Rattle.std.specs.Prelude.{◌≡◌, ◌++◌, OnOk};
ghost use Rattle.dsm_load.specs.Programs.{opening, middle, closing, program_of};

use dsm_base::MemFault;
use std::alloc::Global;

/// The program up to the first place of its number.
#[tactic(auto, unfolding(crate::specs::Programs::opening))]
fn opening() -> &'static str
    ensures { result.now ≡ opening }
{
    "shared int acc[64];
shared int moved[4];
lock_t L[16];
barrier_t B;
bindeach(L, acc, 4);
bindb(B, moved, 0, 1, 0, 1, 3);
bindb(B, moved, 1, 1, 1, 1, 3);
bindb(B, moved, 2, 1, 2, 1, 3);
bindb(B, moved, 3, 1, 3, 1, 3);
int main(int me, int n) {
  for (int i = 4 * me; i < 4 * me + 4; i++) {
    acquire(L[i]);
    for (int j = 0; j < 4; j++) acc[4 * i + j] = 1000;
    release(L[i]);
  }
  barrier(B);
  for (int k = 0; k < 50; k++) {
    int f = (me * 17 + k * 7 + "
}

/// From there to the second place.
#[tactic(auto, unfolding(crate::specs::Programs::middle))]
fn middle() -> &'static str
    ensures { result.now ≡ middle }
{
    ") % 64;
    int t = (f + 1 + (k * 5 + me) % 63) % 64;
    int v = ("
}

/// And the rest.
#[tactic(auto, unfolding(crate::specs::Programs::closing))]
fn closing() -> &'static str
    ensures { result.now ≡ closing }
{
    " + me + k) % 9 + 1;
    int lo = f / 4, hi = t / 4;
    if (lo > hi) { int s = lo; lo = hi; hi = s; }
    acquire(L[lo]);
    if (lo != hi) acquire(L[hi]);
    acc[f] -= v;
    acc[t] += v;
    moved[me] += v;
    if (lo != hi) release(L[hi]);
    release(L[lo]);
  }
  barrier(B);
  if (me == 0) {
    int total = 0, m = 0;
    for (int i = 0; i < 16; i++) {
      acquire_shared(L[i]);
      for (int j = 0; j < 4; j++) total += acc[4 * i + j];
      release(L[i]);
    }
    print(\"total \", total);
    for (int i = 0; i < 4; i++) m += moved[i];
    print(\"moved \", m);
  }
  return 0;
}
"
}

/// Appends the program of the large job with this number. `MemFault` comes out of memory.
pub fn load_program(alloc: Global, seed: u32, out: &mut Vec<u8>) -> Result<(), MemFault>
    ensures { OnOk result (out.new.items ≡ out.old.items ++ program_of seed) }
{
    let number = format!(in alloc; "{seed}")?;
    out.extend_from_slice(opening().as_bytes())?;
    out.extend_from_slice(number.as_bytes())?;
    out.extend_from_slice(middle().as_bytes())?;
    out.extend_from_slice(number.as_bytes())?;
    out.extend_from_slice(closing().as_bytes())?;
    Ok(())
}
