//! Programs and schedules that are tried.

/// A cell under a lock that each processor adds to.
pub const ADDER: &str =
    "shared int x;\nlock_t L;\nbind(L, x, 0, 1);\nint main(int me, int n) {\n  acquire(L);\n  x = x * 10 + me + 1;\n  print(\"x=\", x);\n  release(L);\n  return 0;\n}\n";

/// A program that ends at once.
pub const NOTHING: &str = "int main(int me, int n) { return 0; }\n";

/// Processor 0 first, then processor 1.
pub const FIRST: &str =
    "procs 2\nstep 0 8\nstep 1\ndeliver 1 0\ndeliver 0 1 2\nstep 1 7\ndeliver 1 0 2\n";

/// Processor 1 first, then processor 0.
pub const SECOND: &str =
    "procs 2\nstep 1\ndeliver 1 0\ndeliver 0 1\nstep 1 7\nstep 0\ndeliver 1 0\nstep 0 7\n";

/// A cell that is stored to without its lock, on line 5.
pub const STORED: &str =
    "shared int x;\nlock_t L;\nbind(L, x, 0, 1);\nint main(int me, int n) {\n  x = 1;\n}\n";

/// Each processor adds to a cell twice.
pub const COUNTER: &str =
    "shared int x;\nlock_t L;\nbind(L, x, 0, 1);\nint main(int me, int n) {\n  for (int i = 0; i < 2; i++) {\n    acquire(L);\n    x = x + 1;\n    print(\"x=\", x);\n    release(L);\n  }\n  return 0;\n}\n";

/// A block without its end.
pub const OPEN: &str = "int main(int me, int n) {\n  print(1);\n";

/// A cell in two bindings.
pub const OVERLAP: &str =
    "shared int a[4];\nlock_t L[2];\nbind(L[0], a, 0, 3);\nbind(L[1], a, 2, 2);\nint main(int me, int n) { return 0; }\n";

/// A cell of processor 3.
pub const OWNED: &str =
    "shared int a;\nbarrier_t B;\nbindb(B, a, 0, 1, 3, 0, 1);\nint main(int me, int n) { return 0; }\n";

/// A number one too large.
pub const LARGE: &str =
    "int main(int me, int n) {\n  int x = 9223372036854775808;\n  print(x + me);\n}\n";

/// A sum one too large on processor 1.
pub const SUM: &str =
    "int main(int me, int n) {\n  int x = 9223372036854775807;\n  print(x + me);\n}\n";

/// A cell that is used without its lock, or with a hold that is too weak.
pub const UNBOUND: &str =
    "shared int x;\nlock_t L;\nbind(L, x, 0, 1);\nint main(int me, int n) {\n  if (me == 0) { print(x); }\n  acquire_shared(L);\n  x = 1;\n}\n";

/// Each of three processors hands a value on, twice.
pub const RING: &str =
    "shared int a[3];\nshared int b[3];\nbarrier_t B;\nbindb(B, a, 0, 1, 0, 0, 2);\nbindb(B, b, 0, 1, 0, 1, 2);\nbindb(B, a, 1, 1, 1, 0, 2);\nbindb(B, b, 1, 1, 1, 1, 2);\nbindb(B, a, 2, 1, 2, 0, 2);\nbindb(B, b, 2, 1, 2, 1, 2);\nint main(int me, int n) {\n  a[me] = me + 1;\n  barrier(B);\n  b[me] = a[(me + 1) % n] * 10;\n  barrier(B);\n  print(b[(me + 1) % n]);\n  return 0;\n}\n";

/// Calls without end.
pub const DEEP: &str =
    "int f(int k) { return f(k + 1); }\nint main(int me, int n) { return f(0); }\n";

/// One writes what the others read together.
pub const READERS: &str =
    "shared int x;\nlock_t L;\nbind(L, x, 0, 1);\nint main(int me, int n) {\n  if (me == 1) { acquire(L); x = 5; release(L); } else { acquire_shared(L); print(x); release(L); } return 0;\n}\n";

/// A store in an epoch too late.
pub const LATE: &str =
    "shared int a;\nbarrier_t B;\nbindb(B, a, 0, 1, 0, 0, 2);\nint main(int me, int n) {\n  barrier(B);\n  a = 1;\n}\n";

/// A store that changes no value, to one of three lines.
pub const LINES: &str =
    "shared int a[24];\nlock_t L;\nbind(L, a, 0, 24);\nint main(int me, int n) {\n  acquire(L); if (me == 0) { a[9] = 0; } release(L); return 0;\n}\n";

/// Cells of two locks, in the other order than their pieces, a cell of a barrier, and a lock without cells.
pub const MIXED: &str =
    "shared int a[5];\nshared int z;\nlock_t L[3];\nbarrier_t B;\nbind(L[0], a, 3, 2);\nbind(L[1], a, 0, 2);\nbindb(B, z, 0, 1, 0, 0, 2);\nint main(int me, int n) {\n  if (me == 0) { z = 7; }\n  acquire(L[1]);\n  a[0] = me - 5;\n  release(L[1]);\n  return 0;\n}\n";

/// A value that is handed on at a barrier.
pub const HANDED: &str =
    "shared int a;\nbarrier_t B;\nbindb(B, a, 0, 1, 0, 0, 2);\nint main(int me, int n) {\n  if (me == 0) { a = -3; }\n  barrier(B);\n  print(a);\n}\n";

/// A shared hold, a call, and a divisor of 0 on line 2.
pub const DIVIDED: &str =
    "lock_t L;\nint f(int k) { return 1 / k; }\nint main(int me, int n) {\n  acquire_shared(L);\n  release(L);\n  return f(0);\n}\n";
