// Refusal 9 in one tensor, every element: a pass over blocks of 64 elements counts faults with no branch on an element, and stops at the first block that has one or before a last shorter one; only there is an index looked for.
#![tactic(auto)]

ghost use Rattle.std.specs.Prelude.{◌≡◌, length, position};
ghost use Rattle.bool_laws.specs.Counts.{tally};
ghost use Rattle.call.specs.Contents.{element_fault, tensor_fault};
ghost use Rattle.contents.specs.Faults.{fault_count};

// Whether an element is not a number of magnitude at most 65,536.
fn element_fault(x: f32) -> bool
    ensures { result ≡ element_fault x }
{
    !(-65536.0 <= x && x <= 65536.0)
}

// 1 where an element is at fault, and 0 otherwise.
pub fn fault_number(x: f32) -> u32
    ensures { result ≡ tally (element_fault x) }
{
    u32::from(element_fault(x))
}

// How many of 64 elements are at fault.
fn block_faults(block: &[f32]) -> u32
    requires { length block.now ≡ 64 }
    ensures { result ≡ fault_count block.now }
{
    block.iter().map(|x| fault_number(*x)).sum()
}

// The first index at fault, one element after the other.
fn first_fault(tensor: &[f32]) -> Option<usize>
    ensures { result ≡ position (λ x. element_fault x) tensor.now }
{
    tensor.iter().position(|x| element_fault(*x))
}

// The same by blocks: those without a fault are passed, and the index is looked for after them.
pub fn first_fault_by_blocks(tensor: &[f32]) -> Option<usize>
    ensures { result ≡ tensor_fault tensor.now }
{
    let mut at = 0;
    for block in tensor.chunks_exact(64) {
        if block_faults(block) != 0 {
            break;
        }
        at += 64;
    }
    let found = first_fault(&tensor[at..])?;
    Some(at + found)
}
