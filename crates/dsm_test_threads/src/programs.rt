//! Threads of the code of programs, each alone with shared cells of its own.

use dsm_base::{Fault, Proc, Task, TaskMaker, Want};
use dsm_check::check;
use dsm_code::Code;
use dsm_compile::compile;
use dsm_parse::parse;
use dsm_syntax::lex;
use dsm_thread::CodeMaker;
use std::alloc::Global;
use std::process::Abort;
use std::test::Fail;

/// What a thread did: the lines that it wanted, how many labelled steps it made, and why it stopped, if it
/// did.
#[derive(Drop)]
struct Ran {
    lines: Vec<u8>,
    steps: u32,
    stopped: Option<(Fault, u32)>,
}

/// The code of a text.
fn code_of(alloc: Global, text: &str) -> Result<Code, Fail> {
    let tokens = lex(alloc, text.as_bytes())?;
    let tree = parse(alloc, &tokens)?;
    let checked = check(alloc, &tree)?;
    Ok(compile(alloc, &checked)?)
}

/// Runs the thread of a processor of 2, with 16 shared cells, all of which are 0 at first.
fn run(alloc: Global, text: &str, me: u8) -> Result<Ran, Fail> {
    let maker = CodeMaker::new(alloc, code_of(alloc, text)?)?;
    let mut thread = maker.start(alloc, Proc(me), 2)?;
    let mut cells = [0i64; 16];
    let mut ran = Ran {
        lines: Vec::new(alloc),
        steps: 0,
        stopped: None,
    };
    for step in 0..10_000u32 {
        ran.steps = step;
        match thread.want() {
            Want::Over => return Ok(ran),
            Want::Stop(fault, line) => {
                ran.stopped = Some((fault, line));
                thread.stop(fault);
            }
            Want::Load(cell, _) => thread.done(cells[cell.index() % 16]),
            Want::Store(cell, value, _) => {
                cells[cell.index() % 16] = value;
                thread.done(0);
            }
            Want::Line => {
                ran.lines.extend_from_slice(thread.text())?;
                ran.lines.push(b'\n')?;
                thread.done(0);
            }
            _ => thread.done(0),
        }
    }
    Err("the thread goes on".into())
}

const LOOPS: &str = "int main(int me, int n) {
  int sum = 0;
  for (int i = 0; i < 10; i++) {
    if (i == 3) continue;
    if (i == 7) break;
    sum += i * 2;
  }
  int k = 0;
  while (k < 5) k++;
  for (;;) if (k-- <= 2) break; else sum = sum + 100;
  print(\"sum \", sum, \" k \", k);
  int s = 0;
  for (int i = 0; i < 3; i++) {
    int j = 0;
    while (1) { if (j > i) break; j++; if (j == 2) continue; s = s * 10 + j; }
  }
  print(s);
}";

const LOGIC: &str = "int calls;
int f(int k) { calls = calls * 10 + k; return k; }
int main(int me, int n) {
  int p = f(1) && f(0) && f(2), q = f(0) || f(3) || f(4);
  int r = f(5) ? f(6) : f(7), s = f(0) ? f(8) : f(9);
  print(p, q, r, s, \" \", calls);
  return 0;
}";

const STEPS: &str = "int a[4];
int main(int me, int n) {
  int i = 1;
  a[i++] = 5;
  a[++i] = i;
  a[1]++;
  int b = a[1]--, c = --a[3];
  a[2] += 4 - -3;
  a[2] *= a[2];
  a[2] <<= 1;
  a[2] ^= 7;
  print(i, \" \", b, \" \", c);
  print(a[0], \" \", a[1], \" \", a[2], \" \", a[3]);
  int x = 7;
  x %= 4;
  x |= 8;
  x -= 20;
  print(x, \" \", ~x, \" \", -x, \" \", !x);
}";

const SHARED: &str = "shared int x, a[4];
lock_t L, M[2];
barrier_t B;
bind(L, x, 0, 1);
bindeach(M, a, 2);
int fib(int k) { if (k < 2) return k; return fib(k - 1) + fib(k - 2); }
void store(int at, int value) { acquire(M[at / 2]); a[at] = value; release(M[at / 2]); }
int main(int me, int n) {
  acquire(L);
  x = fib(15);
  print(x++);
  release(L);
  barrier(B);
  store(3, n);
  acquire_shared(M[1]);
  print(me, a[3]);
  release(M[1]);
}";

/// The thread of processor 1 prints the lines that stand beside a program.
fn print(rt: &impl Abort, alloc: Global, table: &[(&str, &str)]) -> Result<(), Fail> {
    for (text, lines) in table {
        let ran = run(alloc, text, 1)?;
        assert_eq!(rt; ran.lines.as_slice(), lines.as_bytes());
        assert_eq!(rt; ran.stopped, None);
    }
    Ok(())
}

#[test]
fn threads_print_what_programs_say(rt: HostRuntime) -> Result<(), Fail> {
    const TABLE: &[(&str, &str)] = &[
        (LOOPS, "sum 336 k 1\n1113\n"),
        (LOGIC, "0169 10035609\n"),
        (STEPS, "3 6 2\n0 5 101 2\n-9 8 9 0\n"),
        (SHARED, "610\n12\n"),
    ];
    print(&rt, rt.alloc(), TABLE)
}

const ENDLESS: &str = "int f(int k) { return f(k + 1); }
int main(int me, int n) { return f(0); }";

#[test]
fn calls_of_programs_are_limited_to_a_depth(rt: HostRuntime) -> Result<(), Fail> {
    let ran = run(rt.alloc(), ENDLESS, 0)?;
    assert_eq!(rt; ran.stopped, Some((Fault::Depth, 1)));
    assert_eq!(rt; ran.steps, 256);
    Ok(())
}

const GREATEST: &str = "int main(int me, int n) {
  int x = 9223372036854775807;
  print(x + me);
}";

#[test]
fn faults_tell_their_line(rt: HostRuntime) -> Result<(), Fail> {
    let alloc = rt.alloc();
    let first = run(alloc, GREATEST, 0)?;
    assert_eq!(rt; first.lines.as_slice(), b"9223372036854775807\n".as_slice());
    assert_eq!(rt; first.stopped, None);
    let second = run(alloc, GREATEST, 1)?;
    assert_eq!(rt; second.lines.len(), 0);
    assert_eq!(rt; second.stopped, Some((Fault::Overflow, 3)));
    Ok(())
}
