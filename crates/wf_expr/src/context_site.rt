/// Where a template appears.
#[derive(Clone, Copy)]
pub enum ContextSite {
    /// The `concurrency` of the workflow, which may use the contexts `github`, `inputs` and `vars`.
    Workflow,
    /// A job's `concurrency`, `runs-on` or `continue-on-error`, which may use all six.
    Job,
}
