// Index expressions, read from texts with more parentheses than they need and printed with those that they need.
use crate::reading_back::{prelude, printed};
use std::alloc::Global;
use std::test::Fail;

/// A program of assignments of index expressions, up to them.
const FRONT: &str = "void f(int64_t n, uint64_t y[n])
{
#pragma sparse inspector
  INDEX2(p, 3);
  for (int64_t i = 0; i < n; i++) {
";

/// The same program behind the assignments.
const BACK: &str = "  }
#pragma sparse executor
  y[0] = 1;
}
";

/// Each kind of operand by itself and under each sign: as it is read, and as it is printed.
const OPERANDS: &str = "7 => 7
i => i
p[i][2] => p[i][2]
-(i) => -i
(i) + (2) => i+2
(i) - (2) => i-2
(i) * 3 => 3*i
min((i), (2)) => min(i, 2)
max((i), (2)) => max(i, 2)
floord((i), 4) => floord(i, 4)
ceild((i), 4) => ceild(i, 4)
-(7) => -7
-(i) => -i
-(p[i][2]) => -p[i][2]
-(-(i)) => -(-i)
-((i) + (2)) => -(i+2)
-((i) - (2)) => -(i-2)
-((i) * 3) => -3*i
-(min((i), (2))) => -min(i, 2)
-(max((i), (2))) => -max(i, 2)
-(floord((i), 4)) => -floord(i, 4)
-(ceild((i), 4)) => -ceild(i, 4)
(n) + (7) => n+7
(n) + (i) => n+i
(n) + (p[i][2]) => n+p[i][2]
(n) + (-(i)) => n+(-i)
(n) + ((i) + (2)) => n+(i+2)
(n) + ((i) - (2)) => n+(i-2)
(n) + ((i) * 3) => n+3*i
(n) + (min((i), (2))) => n+min(i, 2)
(n) + (max((i), (2))) => n+max(i, 2)
(n) + (floord((i), 4)) => n+floord(i, 4)
(n) + (ceild((i), 4)) => n+ceild(i, 4)
(n) - (7) => n-7
(n) - (i) => n-i
(n) - (p[i][2]) => n-p[i][2]
(n) - (-(i)) => n-(-i)
(n) - ((i) + (2)) => n-(i+2)
(n) - ((i) - (2)) => n-(i-2)
(n) - ((i) * 3) => n-3*i
(n) - (min((i), (2))) => n-min(i, 2)
(n) - (max((i), (2))) => n-max(i, 2)
(n) - (floord((i), 4)) => n-floord(i, 4)
(n) - (ceild((i), 4)) => n-ceild(i, 4)
(7) + (n) => 7+n
(i) + (n) => i+n
(p[i][2]) + (n) => p[i][2]+n
(-(i)) + (n) => -i+n
((i) + (2)) + (n) => i+2+n
((i) - (2)) + (n) => i-2+n
((i) * 3) + (n) => 3*i+n
(min((i), (2))) + (n) => min(i, 2)+n
(max((i), (2))) + (n) => max(i, 2)+n
(floord((i), 4)) + (n) => floord(i, 4)+n
(ceild((i), 4)) + (n) => ceild(i, 4)+n
(7) - (n) => 7-n
(i) - (n) => i-n
(p[i][2]) - (n) => p[i][2]-n
(-(i)) - (n) => -i-n
((i) + (2)) - (n) => i+2-n
((i) - (2)) - (n) => i-2-n
((i) * 3) - (n) => 3*i-n
(min((i), (2))) - (n) => min(i, 2)-n
(max((i), (2))) - (n) => max(i, 2)-n
(floord((i), 4)) - (n) => floord(i, 4)-n
(ceild((i), 4)) - (n) => ceild(i, 4)-n
(7) * 5 => 5*7
(i) * 5 => 5*i
(p[i][2]) * 5 => 5*p[i][2]
(-(i)) * 5 => 5*(-i)
((i) + (2)) * 5 => 5*(i+2)
((i) - (2)) * 5 => 5*(i-2)
((i) * 3) * 5 => 5*(3*i)
(min((i), (2))) * 5 => 5*min(i, 2)
(max((i), (2))) * 5 => 5*max(i, 2)
(floord((i), 4)) * 5 => 5*floord(i, 4)
(ceild((i), 4)) * 5 => 5*ceild(i, 4)
";

/// Each kind of operand in a call and in a subscript, and products of numbers, likewise.
const CALLS: &str = "min((7), (n)) => min(7, n)
min((i), (n)) => min(i, n)
min((p[i][2]), (n)) => min(p[i][2], n)
min((-(i)), (n)) => min(-i, n)
min(((i) + (2)), (n)) => min(i+2, n)
min(((i) - (2)), (n)) => min(i-2, n)
min(((i) * 3), (n)) => min(3*i, n)
min((min((i), (2))), (n)) => min(min(i, 2), n)
min((max((i), (2))), (n)) => min(max(i, 2), n)
min((floord((i), 4)), (n)) => min(floord(i, 4), n)
min((ceild((i), 4)), (n)) => min(ceild(i, 4), n)
max((n), (7)) => max(n, 7)
max((n), (i)) => max(n, i)
max((n), (p[i][2])) => max(n, p[i][2])
max((n), (-(i))) => max(n, -i)
max((n), ((i) + (2))) => max(n, i+2)
max((n), ((i) - (2))) => max(n, i-2)
max((n), ((i) * 3)) => max(n, 3*i)
max((n), (min((i), (2)))) => max(n, min(i, 2))
max((n), (max((i), (2)))) => max(n, max(i, 2))
max((n), (floord((i), 4))) => max(n, floord(i, 4))
max((n), (ceild((i), 4))) => max(n, ceild(i, 4))
floord((7), 6) => floord(7, 6)
floord((i), 6) => floord(i, 6)
floord((p[i][2]), 6) => floord(p[i][2], 6)
floord((-(i)), 6) => floord(-i, 6)
floord(((i) + (2)), 6) => floord(i+2, 6)
floord(((i) - (2)), 6) => floord(i-2, 6)
floord(((i) * 3), 6) => floord(3*i, 6)
floord((min((i), (2))), 6) => floord(min(i, 2), 6)
floord((max((i), (2))), 6) => floord(max(i, 2), 6)
floord((floord((i), 4)), 6) => floord(floord(i, 4), 6)
floord((ceild((i), 4)), 6) => floord(ceild(i, 4), 6)
ceild((7), 6) => ceild(7, 6)
ceild((i), 6) => ceild(i, 6)
ceild((p[i][2]), 6) => ceild(p[i][2], 6)
ceild((-(i)), 6) => ceild(-i, 6)
ceild(((i) + (2)), 6) => ceild(i+2, 6)
ceild(((i) - (2)), 6) => ceild(i-2, 6)
ceild(((i) * 3), 6) => ceild(3*i, 6)
ceild((min((i), (2))), 6) => ceild(min(i, 2), 6)
ceild((max((i), (2))), 6) => ceild(max(i, 2), 6)
ceild((floord((i), 4)), 6) => ceild(floord(i, 4), 6)
ceild((ceild((i), 4)), 6) => ceild(ceild(i, 4), 6)
p[(i)][((2))] => p[i][2]
p[p[(0)][1]-(i)][2] => p[p[0][1]-i][2]
2 * 3 => 2*3
2 * (3) => 2*3
(2) * 3 => 3*2
";

// The program that assigns the left or the right expression of each line.
fn assigned(alloc: Global, lines: &str, is_left: bool) -> Result<Vec<u8>, Fail> {
    let mut text = Vec::new(alloc);
    text.extend_from_slice(FRONT.as_bytes())?;
    for line in lines.lines() {
        let (left, right) = line.split_once(" => ").ok_or("two expressions")?;
        text.extend_from_slice(b"    p[i][2] = ")?;
        let side = if is_left { left } else { right };
        text.extend_from_slice(side.as_bytes())?;
        text.extend_from_slice(b";\n")?;
    }
    text.extend_from_slice(BACK.as_bytes())?;
    Ok(text)
}

#[test]
fn index_expressions(rt: HostRuntime) -> Result<(), Fail> {
    let alloc = rt.alloc();
    for lines in [OPERANDS, CALLS] {
        let mut wanted = prelude(alloc)?;
        wanted.extend_from_slice(assigned(alloc, lines, false)?.as_slice())?;
        let first = printed(alloc, assigned(alloc, lines, true)?.as_slice())?;
        assert!(rt; first.as_slice() == wanted.as_slice());
        let second = printed(alloc, wanted.as_slice())?;
        assert!(rt; second.as_slice() == wanted.as_slice());
    }
    Ok(())
}
