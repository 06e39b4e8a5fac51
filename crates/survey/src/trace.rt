use disk::{Label, PageAddress};

// A page of a chain and its label.
#[derive(Clone, Copy)]
pub struct Link {
    pub page: PageAddress,
    pub label: Label,
}
