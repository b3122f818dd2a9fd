// Encodes a small object with the simplex family, k = 3 and blocks of 4 bytes, and prints each node: its number, the data
// blocks that are in it, and its bytes in base sixteen.
#![tactic(auto)]

ghost use Rattle.std.specs.Prelude.{◌≡◌, ◌≤◌, length};

use families::{Code, Family};

const K: usize = 3;

const LENGTH: usize = 4;

const NODES: usize = 7;

// Here and below a write that fails is passed over, as nothing can be said of it.
fn print_number(rt: &impl Print, n: usize) {
    let _ = print!(rt; " {n}");
}

// The numbers of the data blocks that are in a column.
fn print_blocks(rt: &impl Print, column: usize) {
    for i in 0..K {
        if (column >> i) % 2 == 1 {
            print_number(rt, i + 1);
        }
    }
}

fn print_byte(rt: &impl Print, byte: u8) {
    let _ = print!(rt; " {byte:02x}");
}

fn print_bytes(rt: &impl Print, bytes: &[u8]) {
    for byte in bytes {
        print_byte(rt, *byte);
    }
}

fn print_node(rt: &impl Print, nodes: &[u8], j: usize)
    requires { (length nodes.now ≡ 28) × (1 ≤ j) × (j ≤ 7) }
{
    let _ = print!(rt; "node");
    print_number(rt, j);
    let _ = print!(rt; ": blocks");
    let code = Code {
        family: Family::Simplex,
        k: K,
    };
    print_blocks(rt, code.column(j));
    let _ = print!(rt; ", bytes");
    let from = (j - 1) * LENGTH;
    print_bytes(rt, &nodes[from..from + LENGTH]);
    let _ = println!(rt);
}

fn print_nodes(rt: &impl Print, nodes: &[u8])
    requires { length nodes.now ≡ 28 }
{
    for j in 1..NODES + 1 {
        print_node(rt, nodes, j);
    }
}

fn main(rt: HostRuntime) {
    let mut nodes = [0u8; 28];
    match encoding::encode(1, K, LENGTH, b"lacquer disc", &mut nodes) {
        Ok(_) => print_nodes(&rt, &nodes),
        Err(refusal) => {
            let _ = print!(rt; "refused");
            print_number(&rt, usize::from(u8::from(refusal)));
            let _ = println!(rt);
        }
    }
}
