// The depot's program on 16,385 bytes: one byte, code 4.
#![tactic(auto)]

fn main() {
    gateway::serve_standard_input();
}
