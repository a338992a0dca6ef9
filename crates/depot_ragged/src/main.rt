// The depot's program on 31 bytes: one byte, code 3.
#![tactic(auto)]

fn main() {
    gateway::serve_standard_input();
}
