mod answers;
mod found;
mod making;
mod outcomes;
mod sessions;
