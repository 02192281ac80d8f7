// The wedge program: a session on standard input, its replies on standard output.
#![tactic(auto)]

const STDIN_FILENO: i32 = 0;

const STDOUT_FILENO: i32 = 1;

fn main() {
    // At most 65,536 bytes are read; what follows is left to whoever reads next.
    let mut input = io::large_buffer();
    let n = io::read_full(STDIN_FILENO, &mut input);
    let mut output = [0u8; 327680];
    let count = session::run(&input[..n], &mut output);
    io::write_all(STDOUT_FILENO, &output[..count]);
}
