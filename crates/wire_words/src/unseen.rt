// A number that the compiler can't see.
ghost use Rattle.std.specs.Prelude.{◌≡◌};

// 0, whatever `n` is: of two neighbouring numbers one is even. Added to an index, it keeps the compiler from putting a table's numbers in place of what
// is read, and shifts in place of products; vector code it makes of products only.
pub fn zero(n: usize) -> usize
    ensures { result ≡ 0 }
{
    let x = (n % 256) as u16;
    (x * (x + 1) % 2) as usize
}
