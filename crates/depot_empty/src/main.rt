// The depot's program on empty input: empty output.
#![tactic(auto)]

fn main() {
    gateway::serve_standard_input();
}
