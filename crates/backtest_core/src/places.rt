use bar_windows::WindowSpec;

/// Where the windows of a rule's expressions stand among the windows of all rules, as they stand in the text of each.
#[derive(Drop)]
pub struct RulePlaces {
    pub when: Vec<usize>,
    pub quantity: Vec<usize>,
    pub price: Vec<usize>,
    pub limit: Vec<usize>,
}

/// The windows of all rules, each once, and their places for each rule.
#[derive(Drop)]
pub struct WindowTable {
    pub specs: Vec<WindowSpec>,
    pub rules: Vec<RulePlaces>,
}
