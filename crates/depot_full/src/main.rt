// The depot's program on 16,384 bytes, the most that it takes: 512 records and their answers.
#![tactic(auto)]

fn main() {
    gateway::serve_standard_input();
}
