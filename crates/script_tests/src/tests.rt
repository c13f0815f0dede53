//! Tests of `parse` and `show`.
use script_tree::{ParseRefusal, Program, Refused, parse, show};
use std::alloc::Global;

mod changes;
mod formatting;
mod limits;
mod refusals;

/// A canonical script with each form of a line.
const EVERY_FORM: &str = "picos 1
trigger t
comp c
mutex m
cond k
sem s 3
latch l 0
ivar i
stream q
fiber f
  set r0 r15
  add r1 4294967295
  sub r2 0
  mul r3 10
  words r4 1
  len r5 r1
  put 15 r1
  get r6 0
  say 1
  raise 9
  yield
  check
end
main
  signal t
  await t
  attach r1 c t
  detach root t
  return r1 p7 5
  cancel r2 p0 6
  peek r1 r2 c
  wait r1 root
  after 1 c r2
  lock m
  try_lock r1 m
  unlock m
  wait_cond k m
  notify k
  broadcast k
  acquire s
  try_acquire r1 s
  release s
  decr l
  incr r1 l
  await_latch l
  fill r1 i 5
  poison r1 q 6
  read r1 i
  push q r1
  tap r1 q
  next r1 r2 q
  line r3
  spawn f 0
  fork f r1
  promise p1 f 2
  terminate
  error 7
  if r1 eq 0
    loop
      if r1 ne 1
        break
      else
        try
        catch r2
          forbid
          end
        end
      end
    end
  end
  permit
    under c
      link root c
      end
    end
  end
  protect m
    bundle
      flock
      end
    end
  end
  if 1 lt 2
    if 1 le 2
      if 1 gt 2
        if 1 ge 2
        end
      end
    end
  end
  select r1 r2
    on ivar i
    on latch l
    choose
      on stream q r1
      wrap 5
        on done c
      end
    end
    guard r1 eq 2
      on always r3
    end
  end
end
";

/// Reads a text. One that `parse` doesn't take is refused as no script is.
fn read(alloc: Global, text: &[u8]) -> Result<Program, ParseRefusal> {
    if text.len() > 16_777_216 {
        return Err(refused(0, 0));
    }
    parse(alloc, text)
}

/// The canonical text of what a text is.
fn shown(alloc: Global, text: &[u8]) -> Result<String, ParseRefusal> {
    let program = read(alloc, text)?;
    Ok(show(alloc, &program)?)
}

fn refused(line: u32, cause: u8) -> ParseRefusal {
    ParseRefusal::Refused(Refused { line, cause })
}

/// How many lines a text has.
fn count_lines(text: &[u8]) -> usize {
    let ends = text.iter().filter(|byte| **byte == b'\n').count();
    match text.last() {
        Some(b'\n') => ends,
        Some(_) => ends.saturating_add(1),
        None => 0,
    }
}
