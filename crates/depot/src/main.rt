// The depot's program. Its stored run is document 01's example 13: push key 5 value 9, then pop.
#![tactic(auto)]

fn main() {
    gateway::serve_standard_input();
}
